// The states of all components.
ghost use Rattle.std.specs.Prelude.{◌≡◌, ◌≤◌, ◌<◌, ◌↔◌, ℕ, true, length, Err, IfOk, OnOk, OnErr, Some, None, is_some, count_by, slice_get, option_map, option_copied};
ghost use Rattle.std.specs.Option.{option_copied_mut};
ghost use Rattle.std.specs.Borrow.{sem};
ghost use Rattle.sv_value.specs.View.{view_of};
ghost use Rattle.sv_derived.specs.Derived.{found, next};
ghost use Rattle.sv_derived.specs.Order.{ids, AreBelow, IsOrdered};
ghost use Rattle.sv_store.specs.Stores.{value_at, subscription_count, IsOnce};
ghost use Rattle.sv_store.specs.Kept.{subscriber_of};
ghost use Rattle.sv_instance.specs.Place.{inst_number, standing_of};
ghost use Rattle.sv_instance.specs.Instance.{born};
ghost use Rattle.sv_instance.specs.Binds.{bound_of};
ghost use Rattle.sv_instance.specs.Dirty.{is_among};
ghost use Rattle.sv_states.specs.States.{live, setup_of, cell_count, is_dirty_in};
ghost use Rattle.sv_states.specs.Waiting.{snapped};
ghost use Rattle.sv_states.specs.Assignment.{assigned, handed_down, store_set, computed, bound_up};
ghost use Rattle.sv_states.specs.Refusal.{assign_refusal, hand_refusal, store_refusal, bind_refusal, IsAnswer};
ghost use Rattle.sv_states.specs.Change.{depth_above, place_below, added, removed, declared, viewed, with_store, with_derived, subscribed_to};
ghost use Rattle.sv_states.specs.Context.{context_of};
ghost use Rattle.sv_states.specs.Sound.{IsSound};
ghost use Rattle.sv_states.specs.Empty.{no_states};

use crate::board::Board;
use crate::error::{AddError, AssignError};
use crate::queue::Queue;
use std::alloc::Global;
use std::marker::Model;
use sv_base::NoMemory;
use sv_derived::{Derived, Graph, Recipe};
use sv_instance::{Bound, Dirty, Instance, Place, Setup, Standing};
use sv_numbered::Numbered;
use sv_store::{Stores, Sub};
use sv_value::{Inst, Key, Value};
use sv_view::View;

/// How deep an instance may be, the root being 1.
pub const DEPTH_LIMIT: u32 = 64;

/// The live instances by number, the stores, which of them are derived, and who waits for an update. Calls take any instance,
/// cell or store: what isn't there changes nothing.
#[derive(Drop)]
pub struct States {
    alloc: Global,
    board: Board,
}

impl Model for States {
    ghost use Rattle.sv_states.specs.States.{States};
    ghost use Rattle.std.specs.Coded.{codes};
    ghost use Rattle.sv_derived.specs.Derived.{derived_code};
    ghost use Rattle.sv_store.specs.Stores.{store_code};
    ghost use Rattle.sv_instance.specs.contracts.instance.Instance as instance;

    ghost Value = { States };

    ghost coded = { Prim.hlevel (codes, store_code, derived_code, instance.the_row.coded) };

    ghost use Rattle.sv_states.specs.Board.{seen_as, IsKept};

    ghost view = { λ s. seen_as s.board };

    ghost invariant = { λ s. IsKept s.board };
}

impl States {
    ghost use Rattle.sv_states.specs.Lends.{lends_setup};

    /// No instances and no stores.
    pub fn new(alloc: Global) -> Result<States, NoMemory>
        ensures { IfOk result (λ s. s ≡ no_states) }
    {
        let board = Board {
            lives: Numbered::new(alloc),
            stores: Stores::new(alloc)?,
            derived: Graph::new(alloc),
            queue: Queue::new(alloc),
            clock: 0,
        };
        Ok(States { alloc, board })
    }

    /// What holds at every moment: who has a changed cell is queued, and nobody else; the queue names live instances that have had a
    /// snapshot, each once; a cell that changed as often as at the last snapshot is what it was; the instances and the stores tell the
    /// same subscriptions, each once; and a derived store is a store, made after what it is derived of.
    pub fn facts(&self)
        ensures sound { IsSound self.now }
        ensures once { IsOnce self.now.stores }
        ensures ordered { IsOrdered self.now.derived }
        ensures made { AreBelow (ids self.now.derived) (length self.now.stores) }
    {
        let board = &self.board;
        let _stores = board.stores.len();
        let _derived = board.derived.len();
    }

    /// An instance, or `None` exactly where it isn't live.
    pub fn get(&self, inst: Inst) -> Option<&Instance>
        ensures { option_copied result ≡ live self.now inst.number }
    {
        let board = &self.board;
        board.lives.get(inst)
    }

    /// What was left with an instance, to change, or `None` exactly where it isn't live.
    pub fn setup_mut(&mut self, inst: Inst) -> Option<&mut Setup>
        ensures* writes_back { sem 𝓛 (lends_setup self.entry inst.number result) }
        ensures value { option_copied_mut result ≡ setup_of (live self.old inst.number) }
    {
        let board = &mut self.board;
        match board.lives.get_mut(inst) {
            Some(instance) => Some(&mut instance.setup),
            None => None,
        }
    }

    /// How many instances are live.
    pub fn instances(&self) -> u64
        ensures { result ≡ count_by is_some self.now.lives }
    {
        let board = &self.board;
        board.lives.len() as u64
    }

    /// How many subscriptions there are; `NoMemory` where no memory could hold so many.
    pub fn subscriptions(&self) -> Result<u64, NoMemory>
        ensures { IfOk result (λ count. count ≡ subscription_count self.now.stores) }
    {
        let board = &self.board;
        board.stores.subscriptions()
    }

    /// The instance that has waited for an update longest, or `None` exactly where none does.
    pub fn first_queued(&self) -> Option<Inst>
        ensures { option_map inst_number result ≡ slice_get self.now.queue 0 }
    {
        let board = &self.board;
        board.queue.first()
    }

    /// The value of a store, or `None` exactly where it was never made.
    pub fn store_value(&self, id: u32) -> Option<&Value>
        ensures { option_map view_of (option_copied result) ≡ value_at self.now.stores id }
    {
        let board = &self.board;
        board.stores.value(id)
    }

    /// A derived store, or `None` exactly where a store isn't derived.
    pub fn derived(&self, id: u32) -> Option<&Derived>
        ensures { option_copied result ≡ found self.now.derived id }
    {
        let board = &self.board;
        board.derived.get(id)
    }

    /// How many derived stores there are.
    pub fn derived_count(&self) -> usize
        ensures { result ≡ length self.now.derived }
    {
        let board = &self.board;
        board.derived.len()
    }

    /// The derived store that has to be computed first, or `None` exactly where none has to be.
    pub fn pending(&self) -> Option<u32>
        ensures { result ≡ next self.now.derived }
    {
        let board = &self.board;
        board.derived.next()
    }

    /// What the instance or the closest one above it gave under a key, or `None` exactly where none did.
    pub fn context(&self, inst: Inst, key: &Key) -> Option<&Value>
        ensures { option_map view_of (option_copied result) ≡ context_of self.now inst.number key.now }
    {
        let board = &self.board;
        board.context(board.depth(inst), inst, key)
    }

    /// A new instance, whose script hasn't run; `TreeDepth` exactly where it would be deeper than [`DEPTH_LIMIT`]. A parent
    /// that isn't live counts as none.
    pub fn add(
        &mut self,
        component: u32,
        parent: Option<Inst>,
        cells: u8,
        constants: u32,
        standing: Option<Standing>,
    ) -> Result<Inst, AddError>
        ensures number { IfOk result (λ inst. inst.number ≡ length self.old.lives) }
        ensures ok { OnOk result (self.new ≡ added self.old (born (place_below self.old component (option_map inst_number parent) (option_map standing_of standing)) cells constants)) }
        ensures deep { (result ≡ Err AddError.TreeDepth) ↔ (DEPTH_LIMIT ≤ depth_above self.old (option_map inst_number parent)) }
        ensures err { OnErr result (self.new ≡ self.old) }
    {
        let board = &mut self.board;
        let above = board.depth_above(parent);
        if above >= DEPTH_LIMIT {
            return Err(AddError::TreeDepth);
        }
        let place = Place::new(component, above + 1, parent, standing);
        let instance = Instance::new(self.alloc, place, cells, constants)?;
        let inst = board.add(instance)?;
        Ok(inst)
    }

    /// An instance goes, with its subscriptions and its entry in the queue; the derived stores that it made are frozen.
    pub fn remove(&mut self, inst: Inst)
        ensures { self.new ≡ removed self.old inst.number }
    {
        let board = &mut self.board;
        board.remove(inst);
    }

    /// Gives a cell its first value, which counts as no change. Where it has one, or its instance has had a snapshot, nothing
    /// changes.
    pub fn declare(&mut self, at: Sub, value: Value)
        ensures { self.new ≡ declared self.old (subscriber_of at) (view_of value) }
    {
        let board = &mut self.board;
        board.declare(at, value);
    }

    /// Assigns a cell. Where it is a `$` name's, the store that this looks at is set in its place. Else the value is stored where that counts
    /// as a change, then handed up to the variable that the cell is bound to, and then the instance is queued; and where the cell has a `$`
    /// name, that looks at the new value's store from now on. What speaks against it is told, and nothing changes then.
    pub fn assign(&mut self, at: Sub, value: Value) -> Result<(), AssignError>
        ensures ok { OnOk result (self.new ≡ assigned self.old at.inst.number at.cell (view_of value)) }
        ensures answer { IsAnswer (assign_refusal self.old at.inst.number at.cell (view_of value)) result }
        ensures err { OnErr result (self.new ≡ self.old) }
    {
        let board = &mut self.board;
        if let Some(refusal) = board.assign_refusal(at, &value) {
            drop(value);
            return Err(refusal);
        }
        board.assign(self.alloc, at, value)?;
        Ok(())
    }

    /// A prop takes the value that its owner hands down, where that counts as a change, and its instance is queued; nothing is handed up.
    /// What speaks against it is told, and nothing changes then.
    pub fn hand_down(&mut self, at: Sub, value: Value) -> Result<(), AssignError>
        ensures ok { OnOk result (self.new ≡ handed_down self.old (subscriber_of at) (view_of value)) }
        ensures answer { IsAnswer (hand_refusal self.old (subscriber_of at) (view_of value)) result }
        ensures err { OnErr result (self.new ≡ self.old) }
    {
        let board = &mut self.board;
        if let Some(refusal) = board.hand_refusal(at, &value) {
            drop(value);
            return Err(refusal);
        }
        board.hand_down(self.alloc, at, value)?;
        Ok(())
    }

    /// Sets a store, where that counts as a change: what is derived of it is pending, and the cells of its subscribers are
    /// assigned in order. `ReadOnly` exactly where it is a derived one; nothing changes then.
    pub fn set_store(&mut self, id: u32, value: Value) -> Result<(), AssignError>
        ensures ok { OnOk result (self.new ≡ store_set self.old id (view_of value)) }
        ensures answer { IsAnswer (store_refusal self.old id) result }
        ensures err { OnErr result (self.new ≡ self.old) }
    {
        let board = &mut self.board;
        if let Some(refusal) = board.store_refusal(id) {
            drop(value);
            return Err(refusal);
        }
        board.assign_store(self.alloc, id, value)?;
        Ok(())
    }

    /// Binds a prop of an instance to a variable of its owner, which is assigned the prop's value. What speaks against it is told, and
    /// nothing changes then.
    pub fn bind_up(&mut self, inst: Inst, bound: Bound) -> Result<(), AssignError>
        ensures ok { OnOk result (self.new ≡ bound_up self.old inst.number (bound_of bound)) }
        ensures answer { IsAnswer (bind_refusal self.old inst.number (bound_of bound)) result }
        ensures err { OnErr result (self.new ≡ self.old) }
    {
        let board = &mut self.board;
        if let Some(refusal) = board.bind_refusal(inst, bound) {
            return Err(refusal);
        }
        board.bind_up(self.alloc, inst, bound)?;
        Ok(())
    }

    /// Gives an instance its owner's view, which counts as a change of the cell that stands for it. Where that cell's
    /// declaration hasn't run, nothing changes.
    pub fn set_owner_view(&mut self, at: Sub, view: View) -> Result<(), NoMemory>
        ensures ok { OnOk result (self.new ≡ viewed self.old at.inst.number at.cell view) }
        ensures err { OnErr result (self.new ≡ self.old) }
    {
        let board = &mut self.board;
        board.set_owner_view(at, view)
    }

    /// Which cells of an instance changed since its last snapshot, or all where there was none. The snapshot is now, and the
    /// instance leaves the queue.
    pub fn take_dirty(&mut self, inst: Inst) -> Dirty
        ensures states { self.new ≡ snapped self.old inst.number }
        ensures length { length result ≡ cell_count (live self.old inst.number) }
        ensures dirty { (cell : ℕ) → cell < cell_count (live self.old inst.number) → is_among result cell ≡ is_dirty_in (live self.old inst.number) cell }
    {
        let board = &mut self.board;
        board.take_dirty(inst)
    }

    /// Makes a store; its number is the next one, from 0.
    pub fn make_store(&mut self, value: Value) -> Result<u32, NoMemory>
        ensures number { IfOk result (λ id. id ≡ length self.old.stores) }
        ensures ok { OnOk result (self.new ≡ with_store self.old (view_of value)) }
        ensures err { OnErr result (self.new ≡ self.old) }
    {
        let board = &mut self.board;
        board.stores.make(value)
    }

    /// Makes a derived store, whose value was computed by a recipe; its number is the next one.
    pub fn make_derived(
        &mut self,
        owner: Inst,
        recipe: Recipe,
        value: Value,
    ) -> Result<u32, NoMemory>
        requires { AreBelow recipe.inputs (length self.old.stores) }
        ensures number { IfOk result (λ id. id ≡ length self.old.stores) }
        ensures ok { OnOk result (self.new ≡ with_derived self.old owner.number recipe (view_of value)) }
        ensures err { OnErr result (self.new ≡ self.old) }
    {
        let board = &mut self.board;
        board.make_derived(owner, recipe, value)
    }

    /// A derived store was computed: it is no longer pending, and takes the value where that counts as a change. What is derived
    /// of it is pending then, and the cells of its subscribers are assigned in order.
    pub fn settle_one(&mut self, id: u32, value: Value) -> Result<(), NoMemory>
        ensures ok { OnOk result (self.new ≡ computed self.old id (view_of value)) }
        ensures err { OnErr result (self.new ≡ self.old) }
    {
        let board = &mut self.board;
        board.settle_one(self.alloc, id, value)
    }

    /// Makes a cell that of the `$` name of a constant, or of the variable in `source`, which has a value: the cell is subscribed to the store
    /// that the value is, behind the other subscribers, and takes its value; where the value is no store it is `undefined`. Where the
    /// instance isn't live, or the cell is that of a `$` name already, nothing changes.
    pub fn subscribe(&mut self, at: Sub, source: Option<u8>, value: &Value) -> Result<(), NoMemory>
        ensures ok { OnOk result (self.new ≡ subscribed_to self.old (subscriber_of at) source (view_of value.now)) }
        ensures err { OnErr result (self.new ≡ self.old) }
    {
        let board = &mut self.board;
        board.subscribe(at, source, value)
    }
}
