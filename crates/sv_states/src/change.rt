// What else changes the states.
ghost use Rattle.std.specs.Prelude.{◌≡◌, ◌+◌, ◌<◌, ◌^◌, ℕ, false, length, IfOk, OnOk, OnErr, option_map, option_copied, if◌then◌else◌};
ghost use Rattle.sv_value.specs.View.{view_of};
ghost use Rattle.sv_numbered.specs.Numbered.{altered, at as found};
ghost use Rattle.sv_store.specs.Kept.{subscriber_of};
ghost use Rattle.sv_store.specs.Stores.{is_subscribed};
ghost use Rattle.sv_instance.specs.Place.{inst_number};
ghost use Rattle.sv_instance.specs.Dirty.{is_among};
ghost use Rattle.sv_states.specs.States.{with_instance, cell_in, has_cell, cell_count, is_dirty_in};
ghost use Rattle.sv_states.specs.Waiting.{snapped};
ghost use Rattle.sv_states.specs.Moving.{comes};
ghost use Rattle.sv_states.specs.Change.{depth_above, added, removed, declared, with_view, viewed, given, subscribed_to};
ghost use Rattle.sv_states.specs.Prepared.{IsPrepared, with_subscriptions, IsNew};
ghost use Rattle.sv_states.specs.Board.{seen_as, IsReady, IsKept};

use crate::board::Board;
use crate::moves::{store_of, value_of};
use sv_base::NoMemory;
use sv_instance::{Dirty, Instance, Subscription, Subscriptions};
use sv_store::Sub;
use sv_value::{Inst, Value};
use sv_view::{Cell, View};

impl Board {
    // A cell, where its declaration ran.
    pub(crate) fn cell(&self, inst: Inst, cell: u8) -> Option<&Cell>
        ensures { option_copied result ≡ cell_in (found self.now.lives inst.number) cell }
    {
        let instance = self.lives.get(inst)?;
        instance.cells.get(cell)
    }

    // How deep a parent is, the root being 1; 0 where there is none.
    pub(crate) fn depth_above(&self, parent: Option<Inst>) -> u32
        ensures { result ≡ depth_above (seen_as self.now) (option_map inst_number parent) }
    {
        match parent {
            Some(parent) => self.depth(parent),
            None => 0,
        }
    }

    // One more instance, which has changed nothing yet. Room to wait is made for it.
    pub(crate) fn add(&mut self, instance: Instance) -> Result<Inst, NoMemory>
        requires ready { IsReady self.old }
        requires new { IsNew instance }
        ensures number { IfOk result (λ inst. inst.number ≡ length self.old.lives) }
        ensures ok { OnOk result (seen_as self.new ≡ added (seen_as self.old) instance) }
        ensures err { OnErr result (seen_as self.new ≡ seen_as self.old) }
        ensures ready { IsReady self.new }
    {
        let Some(count) = self.lives.len().checked_add(1) else {
            drop(instance);
            return Err(NoMemory);
        };
        self.queue.reserve(count)?;
        self.lives.add(instance)
    }

    // An instance goes, with its subscriptions and its entry in the queue; the derived stores that it made are frozen.
    pub(crate) fn remove(&mut self, inst: Inst)
        requires { IsKept self.old }
        ensures states { seen_as self.new ≡ removed (seen_as self.old) inst.number }
        ensures ready { IsReady self.new }
    {
        self.stores.drop_of(inst);
        if let Some(instance) = self.lives.remove(inst) {
            self.derived.freeze(inst);
            if instance.queued {
                self.queue.leave(inst.number);
            }
        }
    }

    // Gives a cell its first value.
    pub(crate) fn declare(&mut self, at: Sub, value: Value)
        requires { IsReady self.old }
        ensures states { seen_as self.new ≡ declared (seen_as self.old) (subscriber_of at) (view_of value) }
        ensures ready { IsReady self.new }
    {
        match self.lives.get_mut(at.inst) {
            Some(instance) => instance.cells.declare(at.cell, value),
            None => drop(value),
        }
    }

    // Gives an instance its owner's view.
    pub(crate) fn set_owner_view(&mut self, at: Sub, view: View) -> Result<(), NoMemory>
        requires { IsReady self.old }
        ensures ok { OnOk result (seen_as self.new ≡ viewed (seen_as self.old) at.inst.number at.cell view) }
        ensures ready { OnOk result (IsReady self.new) }
        ensures err { OnErr result (self.new ≡ self.old) }
    {
        if self.clock == u64::MAX {
            drop(view);
            return Err(NoMemory);
        }
        if self.put_view(at, view) {
            self.enqueue(at.inst);
        }
        Ok(())
    }

    // Puts the view there, and says whether the cell that stands for it is.
    fn put_view(&mut self, at: Sub, view: View) -> bool
        requires ready { IsReady self.old }
        requires time { self.old.clock + 1 < 2 ^ 64 }
        ensures there { result ≡ has_cell (found self.old.lives at.inst.number) at.cell }
        ensures states { seen_as self.new ≡ (if result then with_instance (with_view at.cell view) (seen_as self.old) at.inst.number else seen_as self.old) }
        ensures ready { IsReady self.new }
    {
        self.clock += 1;
        let Some(instance) = self.lives.get_mut(at.inst) else {
            drop(view);
            return false;
        };
        if !instance.cells.touch(at.cell) {
            drop(view);
            return false;
        }
        instance.owner_view = Some(view);
        true
    }

    // Which cells changed; the snapshot is now, and the instance leaves the queue.
    pub(crate) fn take_dirty(&mut self, inst: Inst) -> Dirty
        requires { IsKept self.old }
        ensures states { seen_as self.new ≡ snapped (seen_as self.old) inst.number }
        ensures length { length result ≡ cell_count (found self.old.lives inst.number) }
        ensures dirty { (cell : ℕ) → cell < cell_count (found self.old.lives inst.number) → is_among result cell ≡ is_dirty_in (found self.old.lives inst.number) cell }
        ensures ready { IsReady self.new }
    {
        let Some(instance) = self.lives.get_mut(inst) else {
            return Dirty::empty();
        };
        let dirty = instance.cells.take_dirty();
        if instance.queued {
            instance.queued = false;
            self.queue.leave(inst.number);
        }
        dirty
    }

    // A cell becomes that of the `$` name of a constant or a variable with a value.
    pub(crate) fn subscribe(
        &mut self,
        at: Sub,
        source: Option<u8>,
        value: &Value,
    ) -> Result<(), NoMemory>
        requires { IsKept self.old }
        ensures ok { OnOk result (seen_as self.new ≡ subscribed_to (seen_as self.old) (subscriber_of at) source (view_of value.now)) }
        ensures ready { OnOk result (IsReady self.new) }
        ensures err { OnErr result (self.new ≡ self.old) }
    {
        if self.clock == u64::MAX {
            return Err(NoMemory);
        }
        let goal = self.goal(None, value)?;
        let name = Subscription {
            cell: at.cell,
            source,
            store: store_of(&goal),
        };
        if let Some(subscriptions) = self.prepare(at.inst, name)? {
            self.enter(name.store, at)?;
            self.put_subscriptions(at.inst, subscriptions);
            self.give(at, value_of(goal));
        }
        Ok(())
    }

    // The `$` names of the instance with a new one, where its cell can become one's.
    fn prepare(&self, inst: Inst, name: Subscription) -> Result<Option<Subscriptions>, NoMemory>
        ensures { IfOk result (IsPrepared (seen_as self.now) inst.number name) }
    {
        let Some(instance) = self.lives.get(inst) else {
            return Ok(None);
        };
        let subscriptions = &instance.subscriptions;
        if subscriptions.find(name.cell).is_some() {
            return Ok(None);
        }
        Ok(Some(subscriptions.with(name)?))
    }

    // A cell comes to a store, if to one, behind its other subscribers.
    fn enter(&mut self, store: Option<u32>, at: Sub) -> Result<(), NoMemory>
        requires { is_subscribed self.old.stores (subscriber_of at) ≡ false }
        ensures ok { OnOk result (self.new ≡ record self.old { stores = comes store (subscriber_of at) self.old.stores }) }
        ensures err { OnErr result (self.new ≡ self.old) }
    {
        match store {
            Some(id) => self.stores.subscribe(id, at),
            None => Ok(()),
        }
    }

    fn put_subscriptions(&mut self, inst: Inst, subscriptions: Subscriptions)
        ensures { self.new ≡ record self.old { lives = altered (with_subscriptions subscriptions) self.old.lives inst.number } }
    {
        match self.lives.get_mut(inst) {
            Some(instance) => instance.subscriptions = subscriptions,
            None => drop(subscriptions),
        }
    }

    // The first value of a cell, or a value that it takes.
    fn give(&mut self, at: Sub, value: Value)
        requires ready { IsReady self.old }
        requires time { self.old.clock + 1 < 2 ^ 64 }
        ensures states { seen_as self.new ≡ given (seen_as self.old) (subscriber_of at) (view_of value) }
        ensures ready { IsReady self.new }
    {
        if self.cell(at.inst, at.cell).is_some() {
            self.take(at, value);
        } else {
            self.declare(at, value);
        }
    }
}
