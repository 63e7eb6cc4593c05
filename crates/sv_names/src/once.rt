// Names, each once.
ghost use Rattle.std.specs.Prelude.{◌≡◌, ◌≤◌, [], length, map, take, IfOk, OnOk, OnErr};
ghost use Rattle.sv_names.specs.Distinct.{has, with_name};
ghost use Rattle.sv_names.specs.Locals.{name_of as spec_name_of};

use crate::locals::name_of;
use indexmap::IndexSet;
use std::alloc::Global;
use std::marker::Model;
use sv_ast::{Ref, RefList};
use sv_base::{Name, NoMemory};
use sv_list::Items;

/// Names, each once, in the order in which they were put in. A clause sees it as the list of them.
#[derive(Drop)]
pub struct Distinct {
    names: IndexSet<Ref>,
}

impl Model for Distinct {
    ghost use Rattle.std.specs.Prelude.{List};
    ghost use Rattle.sv_ast.specs.declared.names.Ref.{Ref};

    ghost Value = { List Ref };

    ghost view = { λ d. d.names.keys };
}

impl Distinct {
    /// No names.
    pub fn new(alloc: Global) -> Distinct
        ensures { result ≡ [] }
    {
        Distinct {
            names: IndexSet::new(alloc),
        }
    }

    /// How many names there are.
    pub fn len(&self) -> usize
        ensures { result ≡ length self.now }
    {
        self.names.len()
    }

    /// Whether a name is there.
    pub fn has(&self, name: Ref) -> bool
        ensures { result ≡ has name self.now }
    {
        self.names.contains(&name)
    }

    /// Puts a name at the end, if it isn't there. Names that find no memory stay as they were.
    pub fn add(&mut self, name: Ref) -> Result<(), NoMemory>
        ensures ok { OnOk result (self.new ≡ with_name self.old name) }
        ensures err { OnErr result (self.new ≡ self.old) }
    {
        self.names.insert(name)?;
        Ok(())
    }

    /// Keeps the first `count` names alone.
    pub fn cut(&mut self, count: usize)
        ensures { self.new ≡ take count self.old }
    {
        self.names.truncate(count);
    }

    /// The names as they are written, without their `$`.
    pub fn to_names(&self, alloc: Global) -> Result<Items<Name>, NoMemory>
        ensures { IfOk result (λ list. list ≡ map spec_name_of self.now) }
    {
        let mut list = Items::new(alloc);
        for name in self.names.as_slice() {
            list.push(name_of(*name))?;
        }
        Ok(list)
    }

    /// The names as a list.
    pub(crate) fn to_list(&self, alloc: Global) -> Result<RefList, NoMemory>
        ensures { IfOk result (λ list. list ≡ self.now) }
    {
        RefList::copy_of(alloc, self.names.as_slice())
    }
}
