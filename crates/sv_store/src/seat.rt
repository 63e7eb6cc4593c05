// Room for subscribers.
ghost use Rattle.std.specs.Prelude.{◌≡◌, ◌++◌, ◌∷◌, [], length, IfOk, ◌<◌, ◌≤◌};

use crate::stores::Sub;
use std::alloc::Global;
use std::marker::Model;
use sv_base::NoMemory;

/// Room that was made ahead for a store's subscribers and one more, so that subscribing takes no memory. A clause sees how many fit.
#[derive(Drop)]
pub struct Seat {
    room: Vec<Sub>,
}

impl Model for Seat {
    ghost use Rattle.std.specs.Prelude.{ℕ};

    ghost Value = { ℕ };

    ghost use Rattle.std.specs.Prelude.{◌≡◌, []};
    ghost use Rattle.std.specs.Vec.{vec_capacity};

    ghost view = { λ s. vec_capacity s.room };

    ghost invariant = { λ s. s.room.items ≡ [] };
}

impl Seat {
    // Room for so many.
    pub(crate) fn new(alloc: Global, count: usize) -> Result<Seat, NoMemory>
        ensures { IfOk result (λ seat. count ≤ seat) }
    {
        Ok(Seat {
            room: Vec::with_capacity(alloc, count)?,
        })
    }

    // One more subscriber.
    pub(crate) fn take(self, subscribers: &mut Vec<Sub>, sub: Sub)
        requires { length subscribers.old.items < self }
        ensures { subscribers.new.items ≡ subscribers.old.items ++ sub ∷ [] }
    {
        let mut room = self.room;
        let Ok(()) = room.extend_from_slice(subscribers) else {
            unreachable!()
        };
        let Ok(()) = room.push(sub) else {
            unreachable!()
        };
        *subscribers = room;
    }
}
