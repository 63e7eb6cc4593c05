// Derived stores one by one.
ghost use Rattle.std.specs.Prelude.{◌≡◌};
ghost use Rattle.sv_derived.specs.Derived.{is_input, marked_by, done_by, frozen_by};

use std::marker::Model;
use sv_base::Span;
use sv_value::{Inst, Value};

/// How a derived store is computed: the numbers of the stores that it is derived of, whether its function takes the list of
/// their values or the value of the only one, the function, and where that is written.
#[derive(Drop)]
pub struct Recipe {
    pub inputs: Vec<u32>,
    pub takes_list: bool,
    pub function: Value,
    pub span: Span,
}

impl Model for Recipe {
    ghost use Rattle.sv_derived.specs.Derived.{Recipe, recipe_code};
    ghost use Rattle.sv_value.specs.View.{view_of};

    ghost Value = { Recipe };

    ghost coded = { recipe_code };

    ghost view = { λ r. record { inputs = r.inputs.items; takes_list = r.takes_list; function = view_of r.function; span = r.span } };
}

/// A derived store: its number, the instance that made it (number 0 for a module file), its recipe, whether an input changed
/// since it was computed, and whether its instance is gone.
#[derive(Drop)]
pub struct Derived {
    pub id: u32,
    pub owner: Inst,
    pub recipe: Recipe,
    pub is_pending: bool,
    pub is_frozen: bool,
}

impl Model for Derived {
    ghost use Rattle.sv_derived.specs.Derived.{Derived, derived_code};

    ghost Value = { Derived };

    ghost coded = { derived_code };

    ghost view = { λ d. record { id = d.id; owner = d.owner.number; recipe = d.recipe; is_pending = d.is_pending; is_frozen = d.is_frozen } };
}

impl Derived {
    // A store changed.
    pub(crate) fn mark(&mut self, id: u32)
        ensures { self.new ≡ marked_by id self.old }
    {
        if !self.is_frozen && self.has_input(id) {
            self.is_pending = true;
        }
    }

    fn has_input(&self, id: u32) -> bool
        ensures { result ≡ is_input id self.now }
    {
        let recipe = &self.recipe;
        recipe.inputs.contains(&id)
    }

    // A derived store was computed.
    pub(crate) fn done(&mut self, id: u32)
        ensures { self.new ≡ done_by id self.old }
    {
        if self.id == id {
            self.is_pending = false;
        }
    }

    // An instance is gone.
    pub(crate) fn freeze(&mut self, owner: Inst)
        ensures { self.new ≡ frozen_by owner.number self.old }
    {
        if self.owner.number == owner.number {
            self.is_frozen = true;
            self.is_pending = false;
        }
    }
}
