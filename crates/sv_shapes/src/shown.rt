// What was shown of an instance.
ghost use Rattle.std.specs.Prelude.{◌≡◌};

use crate::shape::Shapes;
use std::marker::Model;
use sv_value::Inst;
use sv_view::View;

/// The view on which an instance was last shown, whole, and what was shown of its component's markup on it.
#[derive(Drop)]
pub struct Shown {
    pub view: View,
    pub parts: Shapes,
}

/// A child at its place. A clause sees it as its number.
#[derive(Drop)]
pub(crate) struct Child {
    inst: Inst,
}

impl Model for Child {
    ghost use Rattle.std.specs.Prelude.{ℕ};

    ghost Value = { ℕ };

    ghost view = { λ c. c.inst.number };
}

impl Child {
    pub(crate) fn new(inst: Inst) -> Child
        ensures { result ≡ inst.number }
    {
        Child { inst }
    }

    pub(crate) fn inst(&self) -> Inst
        ensures { result.number ≡ self.now }
    {
        self.inst
    }
}
