// The states as they are kept, and the steps of an assignment.
ghost use Rattle.std.specs.Prelude.{◌≡◌, ◌<◌, ◌≤◌, ◌+◌, ◌^◌, length, map, nat_lt, if◌then◌else◌, IfOk, OnOk, OnErr, Some, None};
ghost use Rattle.sv_value.specs.View.{view_of};
ghost use Rattle.sv_numbered.specs.Numbered.{at as found};
ghost use Rattle.sv_store.specs.Stores.{subscribers_at, differs_at};
ghost use Rattle.sv_store.specs.Kept.{subscriber_of};
ghost use Rattle.sv_states.specs.States.{live, depth_of};
ghost use Rattle.sv_states.specs.Waiting.{enqueued};
ghost use Rattle.sv_states.specs.Assignment.{changes_in, cell_stored, taken, told, store_set, end_set, written};
ghost use Rattle.sv_states.specs.Ways.{store_needs};
ghost use Rattle.sv_states.specs.Board.{seen_as, IsReady};

use crate::copies::Copies;
use crate::queue::Queue;
use crate::way::Way;
use std::alloc::Global;
use sv_base::NoMemory;
use sv_derived::Graph;
use sv_instance::Instance;
use sv_numbered::Numbered;
use sv_store::{Stores, Sub};
use sv_value::{Inst, Value};

// The live instances, the stores, which of them are derived, and who waits for an update. The clock tells how often a cell
// changed at most, so that no count is ever exhausted in the middle of an assignment.
#[derive(Drop)]
pub(crate) struct Board {
    pub(crate) lives: Numbered<Instance>,
    pub(crate) stores: Stores,
    pub(crate) derived: Graph,
    pub(crate) queue: Queue,
    pub(crate) clock: u64,
}

impl Board {
    // How deep an instance is, the root being 1; 0 where it isn't live.
    pub(crate) fn depth(&self, inst: Inst) -> u32
        ensures { result ≡ depth_of (found self.now.lives inst.number) }
    {
        match self.lives.get(inst) {
            Some(instance) => {
                let place = &instance.place;
                place.depth()
            }
            None => 0,
        }
    }

    // Copies of a value for all that its way may need.
    pub(crate) fn copies(&self, alloc: Global, way: &Way, value: Value) -> Result<Copies, NoMemory>
        ensures copies { IfOk result (λ c. c.value ≡ view_of value) }
        ensures enough { IfOk result (λ c. length way.now.cells.items + store_needs self.now.stores way.now.store ≤ c.left) }
        ensures time { IfOk result (λ c. self.now.clock + c.left + length way.now.cells.items < 2 ^ 64) }
    {
        let cells = way.cells.len();
        let Some(count) = self.end_needs(way.store).checked_add(cells) else {
            drop(value);
            return Err(NoMemory);
        };
        if !self.has_time(count, cells) {
            drop(value);
            return Err(NoMemory);
        }
        Copies::of(alloc, value, count)
    }

    // Whether the clock can tell so many changes, and so many more.
    fn has_time(&self, count: usize, more: usize) -> bool
        ensures { result ≡ nat_lt (self.now.clock + count + more) (2 ^ 64) }
    {
        match self.clock.checked_add(count as u64) {
            Some(time) => time.checked_add(more as u64).is_some(),
            None => false,
        }
    }

    // How many copies a store and its subscribers may need.
    fn end_needs(&self, store: Option<u32>) -> usize
        ensures { result ≡ store_needs self.now.stores store }
    {
        match store {
            Some(id) => self.stores.subscribers(id).len() + 1,
            None => 0,
        }
    }

    // A cell alone takes a value, and says whether that is a change.
    fn store_cell(&mut self, at: Sub, value: Value) -> bool
        requires ready { IsReady self.old }
        requires time { self.old.clock + 1 < 2 ^ 64 }
        ensures changed { result ≡ changes_in (found self.old.lives at.inst.number) at.cell (view_of value) }
        ensures states { seen_as self.new ≡ (if result then cell_stored (seen_as self.old) (subscriber_of at) (view_of value) else seen_as self.old) }
        ensures clock { self.new.clock ≡ self.old.clock + 1 }
        ensures ready { IsReady self.new }
    {
        self.clock += 1;
        match self.lives.get_mut(at.inst) {
            Some(instance) => instance.cells.assign(at.cell, value),
            None => false,
        }
    }

    // To the end of the queue, where the instance has had a snapshot and isn't there.
    pub(crate) fn enqueue(&mut self, inst: Inst)
        requires { IsReady self.old }
        ensures states { seen_as self.new ≡ enqueued (seen_as self.old) inst.number }
        ensures clock { self.new.clock ≡ self.old.clock }
        ensures ready { IsReady self.new }
    {
        let Some(instance) = self.lives.get_mut(inst) else {
            return;
        };
        if instance.cells.has_shown() && !instance.queued {
            instance.queued = true;
            self.queue.push(inst);
        }
    }

    // A cell takes a value, and nothing follows.
    pub(crate) fn take(&mut self, at: Sub, value: Value)
        requires ready { IsReady self.old }
        requires time { self.old.clock + 1 < 2 ^ 64 }
        ensures states { seen_as self.new ≡ taken (seen_as self.old) (subscriber_of at) (view_of value) }
        ensures clock { self.new.clock ≡ self.old.clock + 1 }
        ensures ready { IsReady self.new }
    {
        if self.store_cell(at, value) {
            self.enqueue(at.inst);
        }
    }

    // The subscribers of a store take a value.
    fn tell(&mut self, id: u32, copies: &mut Copies)
        requires ready { IsReady self.old }
        requires enough { length (subscribers_at self.old.stores id) ≤ copies.old.left }
        requires time { self.old.clock + copies.old.left < 2 ^ 64 }
        ensures states { seen_as self.new ≡ told (subscribers_at self.old.stores id) copies.old.value (seen_as self.old) }
        ensures clock { self.new.clock + copies.new.left ≤ self.old.clock + copies.old.left }
        ensures ready { IsReady self.new }
    {
        for index in 0..self.stores.subscribers(id).len() {
            let subscriber = self.stores.subscribers(id)[index];
            self.take(subscriber, copies.take());
        }
    }

    // A store takes a value; what is derived of it is pending, and its subscribers take it.
    fn set_store(&mut self, id: u32, copies: &mut Copies)
        requires ready { IsReady self.old }
        requires enough { length (subscribers_at self.old.stores id) < copies.old.left }
        requires time { self.old.clock + copies.old.left < 2 ^ 64 }
        ensures states { seen_as self.new ≡ store_set (seen_as self.old) id copies.old.value }
        ensures clock { self.new.clock + copies.new.left ≤ self.old.clock + copies.old.left }
        ensures ready { IsReady self.new }
    {
        if self.stores.set(id, copies.take()) {
            self.derived.mark(id);
            self.tell(id, copies);
        }
    }

    // The store at the end of a way takes a value.
    fn set_end(&mut self, store: Option<u32>, copies: &mut Copies)
        requires ready { IsReady self.old }
        requires enough { store_needs self.old.stores store ≤ copies.old.left }
        requires time { self.old.clock + copies.old.left < 2 ^ 64 }
        ensures states { seen_as self.new ≡ end_set store copies.old.value (seen_as self.old) }
        ensures clock { self.new.clock + copies.new.left ≤ self.old.clock + copies.old.left }
        ensures ready { IsReady self.new }
    {
        if let Some(id) = store {
            self.set_store(id, copies);
        }
    }

    // The cells of a way take a value as far as each changes, and the store at the end; then their instances are queued, the
    // last first.
    pub(crate) fn write(&mut self, cells: &[Sub], store: Option<u32>, copies: &mut Copies)
        requires ready { IsReady self.old }
        requires enough { length cells.now + store_needs self.old.stores store ≤ copies.old.left }
        requires time { self.old.clock + copies.old.left < 2 ^ 64 }
        ensures states { seen_as self.new ≡ written (map subscriber_of cells.now) store copies.old.value (seen_as self.old) }
        ensures clock { self.new.clock + copies.new.left ≤ self.old.clock + copies.old.left }
        ensures ready { IsReady self.new }
    {
        match cells {
            [] => self.set_end(store, copies),
            [first, behind @ ..] => {
                if self.store_cell(*first, copies.take()) {
                    self.write(behind, store, copies);
                    self.enqueue(first.inst);
                }
            }
        }
    }
}
