// Derived stores made and computed.
ghost use Rattle.std.specs.Prelude.{◌≡◌, length, IfOk, OnOk, OnErr};
ghost use Rattle.sv_value.specs.View.{view_of};
ghost use Rattle.sv_derived.specs.Order.{ids, AreBelow};
ghost use Rattle.sv_states.specs.Assignment.{computed};
ghost use Rattle.sv_states.specs.Change.{with_derived};
ghost use Rattle.sv_states.specs.Board.{seen_as, IsReady};

use crate::board::Board;
use crate::way::Way;
use std::alloc::Global;
use sv_base::NoMemory;
use sv_derived::Recipe;
use sv_value::{Inst, Value};

impl Board {
    // One more store, which is computed by a recipe.
    pub(crate) fn make_derived(
        &mut self,
        owner: Inst,
        recipe: Recipe,
        value: Value,
    ) -> Result<u32, NoMemory>
        requires ready { IsReady self.old }
        requires inputs { AreBelow recipe.inputs (length self.old.stores) }
        requires below { AreBelow (ids self.old.derived) (length self.old.stores) }
        ensures number { IfOk result (λ id. id ≡ length self.old.stores) }
        ensures ok { OnOk result (seen_as self.new ≡ with_derived (seen_as self.old) owner.number recipe (view_of value)) }
        ensures err { OnErr result (seen_as self.new ≡ seen_as self.old) }
        ensures ready { IsReady self.new }
    {
        let Ok(id) = u32::try_from(self.stores.len()) else {
            drop(recipe);
            drop(value);
            return Err(NoMemory);
        };
        self.derived.add(id, owner, recipe)?;
        let made = self.stores.make(value);
        if made.is_err() {
            self.derived.take_back();
        }
        made
    }

    // A derived store was computed.
    pub(crate) fn settle_one(
        &mut self,
        alloc: Global,
        id: u32,
        value: Value,
    ) -> Result<(), NoMemory>
        requires { IsReady self.old }
        ensures ok { OnOk result (seen_as self.new ≡ computed (seen_as self.old) id (view_of value)) }
        ensures ready { OnOk result (IsReady self.new) }
        ensures err { OnErr result (self.new ≡ self.old) }
    {
        let way = Way::to_store(alloc, id);
        let mut copies = self.copies(alloc, &way, value)?;
        self.derived.done(id);
        self.write(&way.cells, way.store, &mut copies);
        Ok(())
    }
}
