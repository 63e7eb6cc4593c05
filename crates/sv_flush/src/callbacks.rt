// Lifecycle callbacks.
ghost use Rattle.std.specs.Prelude.{◌≡◌, [], map, option_map, slice_get, IfOk};
ghost use Rattle.sv_value.specs.View.{view_of};
ghost use Rattle.sv_meaning.specs.Gives.{EndsAs};
ghost use Rattle.sv_meaning.specs.Runs.{called, each_in_turn};
ghost use Rattle.sv_flush.specs.Callbacks as spec;
ghost use Rattle.sv_flush.specs.Meets.{Meets};

use crate::machine::{Machine, told};
use crate::page::Page;
use sv_base::{NoMemory, Span};
use sv_instance::When;
use sv_meaning::EvalError;
use sv_parts::PatchError;
use sv_scripts::call;
use sv_value::{Inst, Value};
use sv_world::World;

/// The callbacks of an instance, in the order in which they were given; none where it isn't live.
pub fn callbacks_of(world: &World, inst: Inst, when: When) -> &[Value]
    ensures { map view_of result.now ≡ spec.callbacks_of world.now inst.number when }
{
    match world.states.get(inst) {
        Some(instance) => instance.setup.callbacks.list(when),
        None => &[],
    }
}

impl Machine<'_> {
    /// Calls the callbacks of an instance in their order. After a fault the world is what was done before it.
    pub fn call_all(&self, world: &mut World, inst: Inst, when: When) -> Result<(), EvalError>
        ensures { EndsAs (λ u. u) result world.new (spec.all_called_back self.now.program.now inst.number when world.old) }
    {
        let callbacks = self.share_callbacks(world, inst, when)?;
        self.call_each(world, &callbacks)
    }

    fn call_each(&self, world: &mut World, callbacks: &[Value]) -> Result<(), EvalError>
        ensures { EndsAs (λ u. u) result world.new (each_in_turn (λ v. spec.called_back self.now.program.now (view_of v)) callbacks.now world.old) }
    {
        for callback in callbacks {
            self.call_back(world, callback)?;
        }
        Ok(())
    }

    fn call_back(&self, world: &mut World, callback: &Value) -> Result<(), EvalError>
        ensures { EndsAs (λ u. u) result world.new (spec.called_back self.now.program.now (view_of callback.now) world.old) }
    {
        self.call(world, callback)?;
        Ok(())
    }

    // Callbacks are functions, so that nobody is told of the place.
    fn call(&self, world: &mut World, callback: &Value) -> Result<Value, EvalError>
        ensures { EndsAs view_of result world.new (called self.now.program.now (view_of callback.now) [] spec.nowhere world.old) }
    {
        let nowhere = Span {
            file: 0,
            from: 0,
            to: 0,
        };
        call(self.alloc, self.program, world, callback, &[], nowhere)
    }

    fn share_callbacks(&self, world: &World, inst: Inst, when: When) -> Result<Vec<Value>, NoMemory>
        ensures { IfOk result (λ list. map view_of list.items ≡ spec.callbacks_of world.now inst.number when) }
    {
        let mut list = Vec::new(self.alloc);
        for callback in callbacks_of(world, inst, when) {
            list.push(callback.share()?)?;
        }
        Ok(list)
    }

    /// Calls the mount callbacks of an instance in their order, and keeps the functions that they give until it goes. After a fault the world is
    /// what was done before it.
    pub fn mount_all(&self, world: &mut World, inst: Inst) -> Result<(), EvalError>
        ensures { EndsAs (λ u. u) result world.new (spec.all_mounted self.now.program.now inst.number world.old) }
    {
        let callbacks = self.share_callbacks(world, inst, When::Mount)?;
        self.mount_each(world, inst, &callbacks)
    }

    fn mount_each(
        &self,
        world: &mut World,
        inst: Inst,
        callbacks: &[Value],
    ) -> Result<(), EvalError>
        ensures { EndsAs (λ u. u) result world.new (each_in_turn (λ v. spec.mounted_by self.now.program.now inst.number (view_of v)) callbacks.now world.old) }
    {
        for callback in callbacks {
            self.mount_one(world, inst, callback)?;
        }
        Ok(())
    }

    fn mount_one(&self, world: &mut World, inst: Inst, callback: &Value) -> Result<(), EvalError>
        ensures { EndsAs (λ u. u) result world.new (spec.mounted_by self.now.program.now inst.number (view_of callback.now) world.old) }
    {
        let value = self.call(world, callback)?;
        keep_return(world, inst, value)
    }

    /// Calls an `afterUpdate` callback of an instance by its place, unless it ran in this flush.
    pub fn call_after(&self, page: &mut Page, inst: Inst, at: usize) -> Result<(), PatchError>
        ensures { Meets result page.new (spec.after self.now.program.now inst.number at page.old) }
    {
        if page.rounds.mark_ran(inst, at)? {
            told(self.call_at(&mut page.world, inst, at))
        } else {
            Ok(())
        }
    }

    fn call_at(&self, world: &mut World, inst: Inst, at: usize) -> Result<(), EvalError>
        ensures { EndsAs (λ u. u) result world.new (spec.called_if self.now.program.now (slice_get (spec.callbacks_of world.old inst.number When.After) at) world.old) }
    {
        match share_callback(world, inst, at)? {
            Some(callback) => self.call_back(world, &callback),
            None => Ok(()),
        }
    }
}

// An `afterUpdate` callback by its place.
fn share_callback(world: &World, inst: Inst, at: usize) -> Result<Option<Value>, NoMemory>
    ensures { IfOk result (λ callback. option_map view_of callback ≡ slice_get (spec.callbacks_of world.now inst.number When.After) at) }
{
    match callbacks_of(world, inst, When::After).get(at) {
        Some(callback) => Ok(Some(callback.share()?)),
        None => Ok(None),
    }
}

// A function that a mount callback gave is kept.
fn keep_return(world: &mut World, inst: Inst, value: Value) -> Result<(), EvalError>
    ensures { EndsAs (λ u. u) result world.new (spec.returned inst.number (view_of value) world.old) }
{
    match value {
        Value::Func(_) => {
            world.add_callback(inst, When::Returned, value)?;
            Ok(())
        }
        _ => Ok(()),
    }
}
