// The world.
ghost use Rattle.std.specs.Prelude.{◌≡◌, ◌≤◌, ◌<◌, ◌↔◌, ℕ, length, Err, IfOk, OnOk, OnErr, IsTrue, is_some, count_by, slice_get, option_map, option_copied};
ghost use Rattle.sv_value.specs.View.{view_of};
ghost use Rattle.sv_store.specs.Stores.{subscription_count};
ghost use Rattle.sv_instance.specs.Place.{inst_number, standing_of};
ghost use Rattle.sv_instance.specs.Instance.{born};
ghost use Rattle.sv_instance.specs.Dirty.{is_among};
ghost use Rattle.sv_states.specs.States.{live, cell_in, cell_count, is_dirty_in};
ghost use Rattle.sv_states.specs.Waiting.{snapped};
ghost use Rattle.sv_states.specs.Assignment.{assigned, store_set, bound_up};
ghost use Rattle.sv_states.specs.Refusal.{assign_refusal, store_refusal, bind_refusal, IsAnswer};
ghost use Rattle.sv_states.specs.Change.{depth_above, place_below, added, removed};
ghost use Rattle.sv_world.specs.World.{no_world, view_before, presented_before, presented, constants_in, constants_view};

use crate::turn::Turn;
use std::alloc::Global;
use sv_base::NoMemory;
use sv_instance::{Bound, Dirty, Instance, Standing};
use sv_states::{AddError, AssignError, DEPTH_LIMIT, States};
use sv_store::Sub;
use sv_value::{Inst, Value};
use sv_view::{Cell, Constants, Modules, View};

/// The world in which scripts run: the states of components, the constants of module files, the steps that are left in a turn, and its log.
/// Calls take any instance, cell or store: what isn't there changes nothing.
#[derive(Drop)]
pub struct World {
    pub states: States,
    pub modules: Modules,
    pub turn: Turn,
}

impl World {
    /// No instances, no stores and no module files.
    pub fn new(alloc: Global) -> Result<World, NoMemory>
        ensures { IfOk result (λ world. world ≡ no_world) }
    {
        Ok(World {
            states: States::new(alloc)?,
            modules: Modules::new(alloc, &[])?,
            turn: Turn::new(alloc),
        })
    }

    /// A new instance, whose script hasn't run; `TreeDepth` exactly where it would be deeper than [`DEPTH_LIMIT`]. A parent
    /// that isn't live counts as none.
    pub fn add_instance(
        &mut self,
        component: u32,
        parent: Option<Inst>,
        cells: u8,
        constants: u32,
        standing: Option<Standing>,
    ) -> Result<Inst, AddError>
        ensures number { IfOk result (λ inst. inst.number ≡ length self.old.states.lives) }
        ensures ok { OnOk result (self.new ≡ record self.old { states = added self.old.states (born (place_below self.old.states component (option_map inst_number parent) (option_map standing_of standing)) cells constants) }) }
        ensures deep { (result ≡ Err AddError.TreeDepth) ↔ (DEPTH_LIMIT ≤ depth_above self.old.states (option_map inst_number parent)) }
        ensures err { OnErr result (self.new ≡ self.old) }
    {
        self.states
            .add(component, parent, cells, constants, standing)
    }

    /// An instance goes, with its subscriptions and its entry in the queue; the derived stores that it made are frozen.
    pub fn remove_instance(&mut self, inst: Inst)
        ensures { self.new ≡ record self.old { states = removed self.old.states inst.number } }
    {
        self.states.remove(inst);
    }

    /// Whether an instance is live.
    pub fn is_live(&self, inst: Inst) -> bool
        ensures { result ≡ is_some (live self.now.states inst.number) }
    {
        self.states.get(inst).is_some()
    }

    /// A cell, or `None` exactly where its instance isn't live, its declaration hasn't run or there is no such cell.
    pub fn cell(&self, inst: Inst, cell: u8) -> Option<&Cell>
        ensures { option_copied result ≡ cell_in (live self.now.states inst.number) cell }
    {
        let instance = self.states.get(inst)?;
        instance.cells.get(cell)
    }

    /// Whether a cell's count isn't the one at the last snapshot of its instance; true where there was none.
    pub fn is_dirty(&self, inst: Inst, cell: u8) -> bool
        ensures { result ≡ is_dirty_in (live self.now.states inst.number) cell }
    {
        match self.states.get(inst) {
            Some(instance) => instance.cells.is_dirty(cell),
            None => false,
        }
    }

    /// How many instances are live.
    pub fn instances(&self) -> u64
        ensures { result ≡ count_by is_some self.now.states.lives }
    {
        self.states.instances()
    }

    /// How many subscriptions there are; `NoMemory` where no memory could hold so many.
    pub fn subscriptions(&self) -> Result<u64, NoMemory>
        ensures { IfOk result (λ count. count ≡ subscription_count self.now.states.stores) }
    {
        self.states.subscriptions()
    }

    /// Assigns a cell: the value is stored where that counts as a change, handed up to the variable that the cell is bound to, and the
    /// instance is queued; and where the cell has a `$` name, that looks at the new value's store from now on. Where the cell is a `$` name's,
    /// the store that this looks at is set in its place. What speaks against it is told, and nothing changes then.
    pub fn assign(&mut self, inst: Inst, cell: u8, value: Value) -> Result<(), AssignError>
        ensures ok { OnOk result (self.new ≡ record self.old { states = assigned self.old.states inst.number cell (view_of value) }) }
        ensures answer { IsAnswer (assign_refusal self.old.states inst.number cell (view_of value)) result }
        ensures err { OnErr result (self.new ≡ self.old) }
    {
        self.states.assign(Sub { inst, cell }, value)
    }

    /// Sets a store, where that counts as a change: what is derived of it is pending, and the cells of its subscribers are
    /// assigned in order. `ReadOnly` exactly where it is a derived one.
    pub fn set_store(&mut self, id: u32, value: Value) -> Result<(), AssignError>
        ensures ok { OnOk result (self.new ≡ record self.old { states = store_set self.old.states id (view_of value) }) }
        ensures answer { IsAnswer (store_refusal self.old.states id) result }
        ensures err { OnErr result (self.new ≡ self.old) }
    {
        self.states.set_store(id, value)
    }

    /// Runs a binding callback: binds a prop to a variable of the owner, which is assigned the prop's value. What speaks against it is told,
    /// and nothing changes then.
    pub fn bind_up(
        &mut self,
        child: Inst,
        cell: u8,
        owner: Inst,
        target: u8,
    ) -> Result<(), AssignError>
        ensures ok { OnOk result (self.new ≡ record self.old { states = bound_up self.old.states child.number (record { cell = cell; owner = owner.number; target = target }) }) }
        ensures answer { IsAnswer (bind_refusal self.old.states child.number (record { cell = cell; owner = owner.number; target = target })) result }
        ensures err { OnErr result (self.new ≡ self.old) }
    {
        self.states.bind_up(
            child,
            Bound {
                cell,
                owner,
                target,
            },
        )
    }

    /// Which cells of an instance changed since its last snapshot, or all where there was none. The snapshot is now, and the
    /// instance leaves the queue.
    pub fn take_dirty(&mut self, inst: Inst) -> Dirty
        ensures world { self.new ≡ record self.old { states = snapped self.old.states inst.number } }
        ensures length { length result ≡ cell_count (live self.old.states inst.number) }
        ensures dirty { (cell : ℕ) → cell < cell_count (live self.old.states inst.number) → is_among result cell ≡ is_dirty_in (live self.old.states inst.number) cell }
    {
        self.states.take_dirty(inst)
    }

    /// The view of an instance's present cells and constants, without locals, before the view that its owner handed it, or `None` exactly
    /// where it isn't live.
    pub fn present(&self, alloc: Global, inst: Inst) -> Result<Option<View>, NoMemory>
        ensures { IfOk result (λ view. view ≡ presented self.now.states self.now.modules inst.number) }
    {
        match self.states.get(inst) {
            Some(instance) => {
                let owner = instance.owner_view.as_ref();
                let view = self.view_before(alloc, inst, instance, owner)?;
                Ok(Some(view))
            }
            None => Ok(None),
        }
    }

    /// The same before an owner's view, or before none.
    pub fn present_before(
        &self,
        alloc: Global,
        inst: Inst,
        owner: Option<&View>,
    ) -> Result<Option<View>, NoMemory>
        ensures { IfOk result (λ view. view ≡ presented_before (option_copied owner.entry) self.now.states self.now.modules inst.number) }
    {
        match self.states.get(inst) {
            Some(instance) => {
                let view = self.view_before(alloc, inst, instance, owner)?;
                Ok(Some(view))
            }
            None => Ok(None),
        }
    }

    /// The constants of an instance, or of none, and those of the module files: a view without cells.
    pub fn constants_view(&self, alloc: Global, inst: Inst) -> Result<View, NoMemory>
        ensures { IfOk result (λ view. view ≡ constants_view self.now inst.number) }
    {
        let view = View::of(alloc, inst, Vec::new(alloc), None)?;
        let constants = self.constants_of(alloc, inst)?;
        let modules = self.modules.share()?;
        Ok(view.with_constants(constants, modules))
    }

    fn constants_of(&self, alloc: Global, inst: Inst) -> Result<Constants, NoMemory>
        ensures { IfOk result (λ constants. constants ≡ constants_in (live self.now.states inst.number)) }
    {
        match self.states.get(inst) {
            Some(instance) => {
                let setup = &instance.setup;
                setup.constants.share()
            }
            None => Constants::new(alloc, 0),
        }
    }

    fn view_before(
        &self,
        alloc: Global,
        inst: Inst,
        instance: &Instance,
        owner: Option<&View>,
    ) -> Result<View, NoMemory>
        ensures { IfOk result (λ view. view ≡ view_before (option_copied owner.entry) self.now.modules inst.number instance.now) }
    {
        let cells = instance.cells.present(alloc)?;
        let view = View::of(alloc, inst, cells, owner)?;
        let setup = &instance.setup;
        let constants = setup.constants.share()?;
        let modules = self.modules.share()?;
        Ok(view.with_constants(constants, modules))
    }
}
