// What speaks against an assignment.
ghost use Rattle.std.specs.Prelude.{◌≡◌};
ghost use Rattle.sv_value.specs.View.{view_of};
ghost use Rattle.sv_numbered.specs.Numbered.{at as found};
ghost use Rattle.sv_store.specs.Kept.{subscriber_of};
ghost use Rattle.sv_instance.specs.Binds.{bound_of};
ghost use Rattle.sv_instance.specs.Subscriptions.{follower_of};
ghost use Rattle.sv_states.specs.Moving.{may_hold};
ghost use Rattle.sv_states.specs.Refusal.{store_refusal, name_refusal, held_refusal, refusal, assign_refusal, hand_refusal, bind_refusal};
ghost use Rattle.sv_states.specs.Board.{seen_as};

use crate::board::Board;
use crate::error::AssignError;
use crate::way::above;
use sv_instance::{Bound, Instance};
use sv_store::Sub;
use sv_value::{Inst, Value};

impl Board {
    // What speaks against assigning a cell.
    pub(crate) fn assign_refusal(&self, from: Sub, value: &Value) -> Option<AssignError>
        ensures { result ≡ assign_refusal (seen_as self.now) from.inst.number from.cell (view_of value.now) }
    {
        self.refusal(self.depth(from.inst), from, value)
    }

    // What speaks against it on the way from a cell, through so many levels at most.
    fn refusal(&self, room: u32, at: Sub, value: &Value) -> Option<AssignError>
        ensures { result ≡ refusal room (seen_as self.now) (view_of value.now) at.inst.number at.cell }
    {
        if room == 0 {
            return None;
        }
        let instance = self.lives.get(at.inst)?;
        if let Some(name) = instance.subscriptions.find(at.cell) {
            return self.name_refusal(name.store);
        }
        if !instance.cells.changes(at.cell, value) {
            return None;
        }
        if let Some(variable) = above(instance, at.cell) {
            let further = self.refusal(room - 1, variable, value);
            if further.is_some() {
                return further;
            }
        }
        held_refusal(instance, at.cell, value)
    }

    // What speaks against setting the store that a `$` name looks at.
    fn name_refusal(&self, store: Option<u32>) -> Option<AssignError>
        ensures { result ≡ name_refusal (seen_as self.now) store }
    {
        match store {
            Some(id) => self.store_refusal(id),
            None => Some(AssignError::NotAStore),
        }
    }

    // What speaks against setting a store.
    pub(crate) fn store_refusal(&self, id: u32) -> Option<AssignError>
        ensures { result ≡ store_refusal (seen_as self.now) id }
    {
        if self.derived.get(id).is_some() {
            Some(AssignError::ReadOnly)
        } else {
            None
        }
    }

    // What speaks against handing a value down to a prop.
    pub(crate) fn hand_refusal(&self, at: Sub, value: &Value) -> Option<AssignError>
        ensures { result ≡ hand_refusal (seen_as self.now) (subscriber_of at) (view_of value.now) }
    {
        let instance = self.lives.get(at.inst)?;
        if instance.cells.changes(at.cell, value) {
            held_refusal(instance, at.cell, value)
        } else {
            None
        }
    }

    // What speaks against binding a prop.
    pub(crate) fn bind_refusal(&self, inst: Inst, bound: Bound) -> Option<AssignError>
        ensures { result ≡ bind_refusal (seen_as self.now) inst.number (bound_of bound) }
    {
        let variable = Sub {
            inst: bound.owner,
            cell: bound.target,
        };
        let cell = self.cell(inst, bound.cell)?;
        self.assign_refusal(variable, &cell.value)
    }
}

// What speaks against giving a variable a value because it has a `$` name.
fn held_refusal(instance: &Instance, cell: u8, value: &Value) -> Option<AssignError>
    ensures { result ≡ held_refusal (follower_of instance.now.subscriptions cell) (view_of value.now) }
{
    if instance.subscriptions.follower(cell).is_some() && !may_hold(value) {
        Some(AssignError::NotAStore)
    } else {
        None
    }
}

// Whether a variable with a `$` name may have a value: a store, or nothing.
fn may_hold(value: &Value) -> bool
    ensures { result ≡ may_hold (view_of value.now) }
{
    matches!(value, Value::Undefined | Value::Null | Value::Store(_))
}
