// Values that go their ways.
ghost use Rattle.std.specs.Prelude.{◌≡◌, IfOk};
ghost use Rattle.sv_value.specs.View.{view_of};
ghost use Rattle.sv_states.specs.Assignment.{sent};
ghost use Rattle.sv_states.specs.Ways.{way_seen};
ghost use Rattle.sv_states.specs.Parcels.{IsPacked};
ghost use Rattle.sv_states.specs.Board.{seen_as, IsKept};

use crate::board::Board;
use crate::copies::Copies;
use crate::moves::Moves;
use crate::way::Way;
use std::alloc::Global;
use sv_base::NoMemory;
use sv_value::Value;

// A value with its way, and all that it takes there, made ahead.
#[derive(Drop)]
pub(crate) struct Parcel {
    pub(crate) way: Way,
    pub(crate) copies: Copies,
    pub(crate) moves: Option<Moves>,
}

impl Board {
    // Makes ahead what a value takes on its way.
    pub(crate) fn pack(&self, alloc: Global, way: Way, value: Value) -> Result<Parcel, NoMemory>
        ensures way { IfOk result (λ p. way_seen p.way ≡ way_seen way) }
        ensures value { IfOk result (λ p. p.copies.value ≡ view_of value) }
        ensures packed { IfOk result (IsPacked self.now.stores self.now.clock) }
    {
        let goal = self.goal(way.store, &value)?;
        let moves = Moves::to(alloc, &self.stores, goal, way.cells.len())?;
        let copies = self.copies(alloc, &way, value)?;
        Ok(Parcel { way, copies, moves })
    }

    // A value goes its way, and then the `$` names of the variables that took it move.
    pub(crate) fn deliver(&mut self, parcel: Parcel)
        requires kept { IsKept self.old }
        requires packed { IsPacked self.old.stores self.old.clock parcel }
        ensures states { seen_as self.new ≡ sent (way_seen parcel.way) parcel.copies.value (seen_as self.old) }
        ensures kept { IsKept self.new }
    {
        let Parcel {
            way,
            mut copies,
            mut moves,
        } = parcel;
        self.write(&way.cells, way.store, &mut copies);
        self.follow_all(&way.cells, &mut moves);
    }
}
