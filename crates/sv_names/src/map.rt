// What names stand for.
ghost use Rattle.std.specs.Prelude.{◌≡◌, [], OnOk};
ghost use Rattle.sv_names.specs.NameMap as spec;

use indexmap::IndexMap;
use std::alloc::Global;
use std::marker::Model;
use sv_ast::Ref;
use sv_base::NoMemory;

/// Names with the numbers that they stand for, each once, in the order in which they were put in. A clause sees it as the list of both.
#[derive(Drop)]
pub struct NameMap {
    numbers: IndexMap<Ref, usize>,
}

impl Model for NameMap {
    ghost use Rattle.sv_names.specs.NameMap.{Entries};

    ghost Value = { Entries };

    ghost view = { λ m. m.numbers.entries };
}

impl NameMap {
    /// No names.
    pub fn new(alloc: Global) -> NameMap
        ensures { result ≡ [] }
    {
        NameMap {
            numbers: IndexMap::new(alloc),
        }
    }

    /// The number that a name stands for.
    #[tactic(auto, using(crate::proofs::Entries::number_found))]
    pub fn get(&self, name: Ref) -> Option<usize>
        ensures { result ≡ spec.number_of self.now name }
    {
        self.numbers.get(&name).copied()
    }

    /// Adds a name that stands for a number, unless it stands for one already.
    pub fn add(&mut self, name: Ref, number: usize) -> Result<(), NoMemory>
        ensures { OnOk result (self.new ≡ spec.with_entry self.old (name, number)) }
    {
        if !self.numbers.contains_key(&name) {
            self.numbers.insert(name, number)?;
        }
        Ok(())
    }

    /// The names with their numbers, to go through them.
    pub fn entries(&self) -> &IndexMap<Ref, usize>
        ensures { result.now.entries ≡ self.now }
    {
        &self.numbers
    }
}
