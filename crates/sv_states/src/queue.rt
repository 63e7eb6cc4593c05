// Who waits for an update.
ghost use Rattle.std.specs.Prelude.{◌≡◌, ◌<◌, ◌≤◌, ◌++◌, ◌∷◌, [], length, option_map, OnOk, MatchOption, IfSome, slice_get};
ghost use Rattle.std.specs.VecDeque.{deque_len};
ghost use Rattle.sv_instance.specs.Place.{inst_number};
ghost use Rattle.sv_states.specs.Waiting.{without};
ghost use Rattle.sv_states.specs.Queue.{IsAway, IsPlace};

use std::alloc::Global;
use std::collections::VecDeque;
use std::marker::Model;
use sv_base::NoMemory;
use sv_value::Inst;

// Instances in the order in which they wait.
#[derive(Drop)]
pub(crate) struct Queue {
    entries: VecDeque<Inst>,
}

impl Model for Queue {
    ghost use Rattle.sv_states.specs.Queue.{Queue, queue_code};

    ghost Value = { Queue };

    ghost coded = { queue_code };

    ghost use Rattle.std.specs.Prelude.{map};
    ghost use Rattle.std.specs.VecDeque.{deque_capacity};
    ghost use Rattle.sv_instance.specs.Place.{inst_number};

    ghost view = { λ q. record { order = map inst_number q.entries.items; room = deque_capacity q.entries } };
}

impl Queue {
    pub(crate) fn new(alloc: Global) -> Queue
        ensures { result.order ≡ [] }
    {
        Queue {
            entries: VecDeque::new(alloc),
        }
    }

    // The instance that has waited longest.
    pub(crate) fn first(&self) -> Option<Inst>
        ensures { option_map inst_number result ≡ slice_get self.now.order 0 }
    {
        self.entries.front().copied()
    }

    // Makes room for so many in all.
    pub(crate) fn reserve(&mut self, count: usize) -> Result<(), NoMemory>
        ensures room { OnOk result (count ≤ self.new.room) }
        ensures more { self.old.room ≤ self.new.room }
        ensures order { self.new.order ≡ self.old.order }
    {
        if self.entries.capacity() < count {
            self.entries.reserve(count.saturating_mul(2))?;
        }
        Ok(())
    }

    // To the end.
    pub(crate) fn push(&mut self, inst: Inst)
        requires { length self.old.order < self.old.room }
        ensures { self.new ≡ record self.old { order = self.old.order ++ inst.number ∷ [] } }
    {
        let Ok(()) = self.entries.push_back(inst) else {
            unreachable!()
        };
    }

    // An instance leaves, wherever it stands.
    pub(crate) fn leave(&mut self, number: u64)
        ensures { self.new ≡ record self.old { order = without self.old.order number } }
    {
        if let Some(place) = place_of(&self.entries, number) {
            self.entries.remove(place);
        }
    }
}

// Where an instance stands.
fn place_of(entries: &VecDeque<Inst>, number: u64) -> Option<usize>
    ensures place { MatchOption result (IsAway entries.now.items number) (IsPlace entries.now.items number) }
    ensures within { IfSome result (λ place. place < deque_len entries.now) }
{
    for place in 0..entries.len() {
        if entries[place].number == number {
            return Some(place);
        }
    }
    None
}
