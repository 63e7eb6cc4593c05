// Names that stand once.
ghost use Rattle.std.specs.Prelude.{◌≡◌, [], not, IfOk, OnOk, if◌then◌else◌};
ghost use Rattle.sv_tags.specs.Taken.{has, with_key};

use indexmap::IndexSet;
use std::alloc::Global;
use std::marker::Model;
use sv_base::{Name, NoMemory};

/// A name that stands once in a tag: of an attribute or a binding, of a class, or one that a slot gives.
#[derive(Clone, Copy, Debug, PartialEq, Eq, Hash)]
pub(crate) enum Key {
    Attribute(Name),
    Class(Name),
    Let(Name),
}

/// The names that stand in a tag so far. A clause sees it as the list of them.
#[derive(Drop)]
pub(crate) struct Taken {
    keys: IndexSet<Key>,
}

impl Model for Taken {
    ghost use Rattle.std.specs.Prelude.{List};
    ghost use Rattle.sv_tags.specs.declared.taken.Key.{Key};

    ghost Value = { List Key };

    ghost view = { λ t. t.keys.keys };
}

impl Taken {
    /// No names.
    pub(crate) fn new(alloc: Global) -> Taken
        ensures { result ≡ [] }
    {
        Taken {
            keys: IndexSet::new(alloc),
        }
    }

    /// Puts a name in, and says whether it was new.
    pub(crate) fn add(&mut self, key: Key) -> Result<bool, NoMemory>
        ensures new { IfOk result (λ new. new ≡ not (has key self.old)) }
        ensures taken { OnOk result (self.new ≡ (if has key self.old then self.old else with_key self.old key)) }
    {
        Ok(self.keys.insert(key)?)
    }
}
