// Values that are assigned.
ghost use Rattle.std.specs.Prelude.{◌≡◌, IfOk, OnOk, OnErr, option_map};
ghost use Rattle.sv_value.specs.View.{view_of};
ghost use Rattle.sv_numbered.specs.Numbered.{altered, at as found};
ghost use Rattle.sv_store.specs.Kept.{subscriber_of};
ghost use Rattle.sv_instance.specs.Binds.{bound_of};
ghost use Rattle.sv_states.specs.States.{value_in};
ghost use Rattle.sv_states.specs.Assignment.{assigned, handed_down, store_set, bound_up, with_bound};
ghost use Rattle.sv_states.specs.Board.{seen_as, IsKept};

use crate::board::Board;
use crate::way::Way;
use std::alloc::Global;
use sv_base::NoMemory;
use sv_instance::Bound;
use sv_store::Sub;
use sv_value::{Inst, Value};

impl Board {
    // An assignment.
    pub(crate) fn assign(&mut self, alloc: Global, at: Sub, value: Value) -> Result<(), NoMemory>
        requires { IsKept self.old }
        ensures ok { OnOk result (seen_as self.new ≡ assigned (seen_as self.old) at.inst.number at.cell (view_of value)) }
        ensures kept { IsKept self.new }
        ensures err { OnErr result (self.new ≡ self.old) }
    {
        let way = self.way(alloc, at, &value)?;
        let parcel = self.pack(alloc, way, value)?;
        self.deliver(parcel);
        Ok(())
    }

    // A prop takes what its owner hands down.
    pub(crate) fn hand_down(&mut self, alloc: Global, at: Sub, value: Value) -> Result<(), NoMemory>
        requires { IsKept self.old }
        ensures ok { OnOk result (seen_as self.new ≡ handed_down (seen_as self.old) (subscriber_of at) (view_of value)) }
        ensures kept { IsKept self.new }
        ensures err { OnErr result (self.new ≡ self.old) }
    {
        let way = self.way_into(alloc, at, &value)?;
        let parcel = self.pack(alloc, way, value)?;
        self.deliver(parcel);
        Ok(())
    }

    // A store takes a value.
    pub(crate) fn assign_store(
        &mut self,
        alloc: Global,
        id: u32,
        value: Value,
    ) -> Result<(), NoMemory>
        requires { IsKept self.old }
        ensures ok { OnOk result (seen_as self.new ≡ store_set (seen_as self.old) id (view_of value)) }
        ensures kept { IsKept self.new }
        ensures err { OnErr result (self.new ≡ self.old) }
    {
        let parcel = self.pack(alloc, Way::to_store(alloc, id), value)?;
        self.deliver(parcel);
        Ok(())
    }

    // A prop is bound, and its value goes the way of the owner's variable.
    pub(crate) fn bind_up(
        &mut self,
        alloc: Global,
        inst: Inst,
        bound: Bound,
    ) -> Result<(), NoMemory>
        requires { IsKept self.old }
        ensures ok { OnOk result (seen_as self.new ≡ bound_up (seen_as self.old) inst.number (bound_of bound)) }
        ensures kept { IsKept self.new }
        ensures err { OnErr result (self.new ≡ self.old) }
    {
        let variable = Sub {
            inst: bound.owner,
            cell: bound.target,
        };
        match self.value(inst, bound.cell)? {
            Some(value) => {
                let way = self.way(alloc, variable, &value)?;
                let parcel = self.pack(alloc, way, value)?;
                self.bind(inst, bound)?;
                self.deliver(parcel);
                Ok(())
            }
            None => self.bind(inst, bound),
        }
    }

    // The value of a cell, where its declaration ran.
    fn value(&self, inst: Inst, cell: u8) -> Result<Option<Value>, NoMemory>
        ensures { IfOk result (λ value. option_map view_of value ≡ value_in (found self.now.lives inst.number) cell) }
    {
        match self.cell(inst, cell) {
            Some(cell) => Ok(Some(cell.value.share()?)),
            None => Ok(None),
        }
    }

    fn bind(&mut self, inst: Inst, bound: Bound) -> Result<(), NoMemory>
        ensures ok { OnOk result (self.new ≡ record self.old { lives = altered (with_bound (bound_of bound)) self.old.lives inst.number }) }
        ensures err { OnErr result (self.new ≡ self.old) }
    {
        match self.lives.get_mut(inst) {
            Some(instance) => {
                let setup = &mut instance.setup;
                setup.bounds.add(bound)
            }
            None => Ok(()),
        }
    }
}
