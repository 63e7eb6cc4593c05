// The way of a value: the cells that it is handed up to.
ghost use Rattle.std.specs.Prelude.{◌≡◌, IfOk, OnOk, [], Some, None, option_map};
ghost use Rattle.sv_value.specs.View.{view_of};
ghost use Rattle.sv_numbered.specs.Numbered.{at as found};
ghost use Rattle.sv_store.specs.Kept.{subscriber_of};
ghost use Rattle.sv_instance.specs.Bound.{bound_at};
ghost use Rattle.sv_instance.specs.Binds.{bound_of};
ghost use Rattle.sv_states.specs.Assignment as seen;
ghost use Rattle.sv_states.specs.Assignment.{nowhere, way_of, way_into, changes_in};
ghost use Rattle.sv_states.specs.Ways.{way_seen, behind, above};
ghost use Rattle.sv_states.specs.Board.{seen_as};

use crate::board::Board;
use std::alloc::Global;
use sv_base::NoMemory;
use sv_instance::Instance;
use sv_store::Sub;
use sv_value::Value;

// Cells, each but the first the variable that the one before is bound to, and the store whose value the next one has.
#[derive(Drop)]
pub(crate) struct Way {
    pub(crate) cells: Vec<Sub>,
    pub(crate) store: Option<u32>,
}

impl Way {
    // Nowhere.
    fn new(alloc: Global) -> Way
        ensures { way_seen result ≡ nowhere }
    {
        Way {
            cells: Vec::new(alloc),
            store: None,
        }
    }

    // To a store alone.
    pub(crate) fn to_store(alloc: Global, id: u32) -> Way
        ensures { way_seen result ≡ record { cells = []; store = Some id } }
    {
        Way {
            cells: Vec::new(alloc),
            store: Some(id),
        }
    }
}

impl Board {
    // The way of a value that a cell is assigned.
    pub(crate) fn way(&self, alloc: Global, from: Sub, value: &Value) -> Result<Way, NoMemory>
        ensures { IfOk result (λ w. way_seen w ≡ way_of (seen_as self.now) from.inst.number from.cell (view_of value.now)) }
    {
        let mut way = Way::new(alloc);
        self.go(&mut way, self.depth(from.inst), from, value)?;
        Ok(way)
    }

    // The way from a cell, through so many levels at most, behind the cells that there are already.
    fn go(&self, way: &mut Way, room: u32, at: Sub, value: &Value) -> Result<(), NoMemory>
        requires { way.old.store ≡ None }
        ensures { OnOk result (way_seen way.new ≡ behind (way_seen way.old) (seen.way room (seen_as self.now) (view_of value.now) at.inst.number at.cell)) }
    {
        if room == 0 {
            return Ok(());
        }
        let Some(instance) = self.lives.get(at.inst) else {
            return Ok(());
        };
        if let Some(name) = instance.subscriptions.find(at.cell) {
            way.store = name.store;
            return Ok(());
        }
        if !instance.cells.changes(at.cell, value) {
            return Ok(());
        }
        way.cells.push(at)?;
        match above(instance, at.cell) {
            Some(variable) => self.go(way, room - 1, variable, value),
            None => Ok(()),
        }
    }

    // Into a cell, where that counts as a change, and no further.
    pub(crate) fn way_into(&self, alloc: Global, at: Sub, value: &Value) -> Result<Way, NoMemory>
        ensures { IfOk result (λ w. way_seen w ≡ way_into (seen_as self.now) (subscriber_of at) (view_of value.now)) }
    {
        let mut way = Way::new(alloc);
        if self.changes(at, value) {
            way.cells.push(at)?;
        }
        Ok(way)
    }

    // Whether assigning a cell counts as a change.
    fn changes(&self, at: Sub, value: &Value) -> bool
        ensures { result ≡ changes_in (found self.now.lives at.inst.number) at.cell (view_of value.now) }
    {
        match self.lives.get(at.inst) {
            Some(instance) => instance.cells.changes(at.cell, value),
            None => false,
        }
    }
}

// The variable that a cell is bound to.
pub(crate) fn above(instance: &Instance, cell: u8) -> Option<Sub>
    ensures { option_map subscriber_of result ≡ above (bound_at instance.now.setup.bounds cell) }
{
    let setup = &instance.setup;
    let bound = setup.bounds.find(cell)?;
    Some(Sub {
        inst: bound.owner,
        cell: bound.target,
    })
}
