// The derived stores of a page.
ghost use Rattle.std.specs.Prelude.{◌≡◌, ◌-◌, [], length, take, IfOk, OnOk, OnErr, option_copied};
ghost use Rattle.sv_derived.specs.Derived.{with_one, found, inputs_of, marked, next, done, frozen};
ghost use Rattle.sv_derived.specs.Order.{ids, AreBelow, IsOrdered};

use crate::entry::{Derived, Recipe};
use std::alloc::Global;
use std::marker::Model;
use sv_base::NoMemory;
use sv_value::Inst;

/// The derived stores in the order in which they were made (`derived` of `svelte/store`). None is ever taken away but
/// the last, right after it was made. What a store is derived of was made before it.
#[derive(Drop)]
pub struct Graph {
    entries: Vec<Derived>,
}

impl Model for Graph {
    ghost use Rattle.std.specs.Prelude.{List};
    ghost use Rattle.std.specs.Coded.{coded_list};
    ghost use Rattle.sv_derived.specs.Derived.{Derived, derived_code};

    ghost Value = { List Derived };

    ghost coded = { coded_list derived_code };

    ghost use Rattle.sv_derived.specs.Order.{IsOrdered};

    ghost view = { λ g. g.entries.items };

    ghost invariant = { λ g. IsOrdered g.entries.items };
}

impl Graph {
    /// No derived stores.
    pub fn new(alloc: Global) -> Graph
        ensures { result ≡ [] }
    {
        Graph {
            entries: Vec::new(alloc),
        }
    }

    /// How many there are. Each number is above the earlier ones and above the numbers of what the store is derived of, and
    /// a frozen one isn't pending.
    pub fn len(&self) -> usize
        ensures count { result ≡ length self.now }
        ensures ordered { IsOrdered self.now }
    {
        self.entries.len()
    }

    /// One more, which is computed.
    pub fn add(&mut self, id: u32, owner: Inst, recipe: Recipe) -> Result<(), NoMemory>
        requires inputs { AreBelow recipe.inputs id }
        requires last { AreBelow (ids self.old) id }
        ensures ok { OnOk result (self.new ≡ with_one self.old id owner.number recipe) }
        ensures err { OnErr result (self.new ≡ self.old) }
    {
        self.entries.push(Derived {
            id,
            owner,
            recipe,
            is_pending: false,
            is_frozen: false,
        })?;
        Ok(())
    }

    /// Takes the last one back, if there is one.
    pub fn take_back(&mut self)
        ensures { self.new ≡ take (length self.old - 1) self.old }
    {
        let _last = self.entries.pop();
    }

    /// The derived store with a number, or `None` exactly where there is none.
    pub fn get(&self, id: u32) -> Option<&Derived>
        ensures { option_copied result ≡ found self.now id }
    {
        find(&self.entries, id)
    }

    /// The numbers of the stores that a derived store is computed from; none where it is no derived one.
    pub fn inputs(&self, id: u32) -> &[u32]
        ensures { result.now ≡ inputs_of (found self.now id) }
    {
        match self.get(id) {
            Some(derived) => {
                let recipe = &derived.recipe;
                recipe.inputs.as_slice()
            }
            None => &[],
        }
    }

    /// A store changed: each that is derived of it is pending, but a frozen one.
    pub fn mark(&mut self, id: u32)
        ensures { self.new ≡ marked self.old id }
    {
        mark_all(&mut self.entries, id);
    }

    /// The pending one that was made first, or `None` exactly where none is pending.
    pub fn next(&self) -> Option<u32>
        ensures { result ≡ next self.now }
    {
        next_of(&self.entries)
    }

    /// A derived store was computed, so that it is no longer pending.
    pub fn done(&mut self, id: u32)
        ensures { self.new ≡ done self.old id }
    {
        done_all(&mut self.entries, id);
    }

    /// An instance is gone: what it made is frozen, and not pending.
    pub fn freeze(&mut self, owner: Inst)
        ensures { self.new ≡ frozen self.old owner.number }
    {
        freeze_all(&mut self.entries, owner);
    }
}

fn find(entries: &[Derived], id: u32) -> Option<&Derived>
    ensures { option_copied result ≡ found entries.now id }
{
    for entry in entries {
        if entry.id == id {
            return Some(entry);
        }
    }
    None
}

fn next_of(entries: &[Derived]) -> Option<u32>
    ensures { result ≡ next entries.now }
{
    for entry in entries {
        if entry.is_pending {
            return Some(entry.id);
        }
    }
    None
}

fn mark_all(entries: &mut [Derived], id: u32)
    ensures { entries.new ≡ marked entries.old id }
{
    for index in 0..entries.len() {
        entries[index].mark(id);
    }
}

fn done_all(entries: &mut [Derived], id: u32)
    ensures { entries.new ≡ done entries.old id }
{
    for index in 0..entries.len() {
        entries[index].done(id);
    }
}

fn freeze_all(entries: &mut [Derived], owner: Inst)
    ensures { entries.new ≡ frozen entries.old owner.number }
{
    for index in 0..entries.len() {
        entries[index].freeze(owner);
    }
}
