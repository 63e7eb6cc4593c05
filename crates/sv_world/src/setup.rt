// What scripts and tags leave with instances.
ghost use Rattle.std.specs.Prelude.{◌≡◌, ◌∷◌, true, Some, OnOk, OnErr, option_map, option_copied, slice_set};
ghost use Rattle.sv_value.specs.View.{view_of};
ghost use Rattle.sv_instance.specs.Callbacks.{with_callback};
ghost use Rattle.sv_states.specs.States.{live};
ghost use Rattle.sv_world.specs.Setup.{set_up, callback_in, constant_in};

use crate::world::World;
use sv_base::NoMemory;
use sv_instance::When;
use sv_value::{Inst, Key, Value};
use sv_view::Locals;

impl World {
    /// One more lifecycle callback of an instance, behind the others of its list. Where the instance isn't live, nothing
    /// changes.
    pub fn add_callback(&mut self, inst: Inst, when: When, callback: Value) -> Result<(), NoMemory>
        ensures ok { OnOk result (self.new ≡ set_up (λ s. record s { callbacks = with_callback when (view_of callback) s.callbacks }) self.old inst.number) }
        ensures err { OnErr result (self.new ≡ self.old) }
    {
        match self.states.setup_mut(inst) {
            Some(setup) => setup.callbacks.add(when, callback),
            None => {
                drop(callback);
                Ok(())
            }
        }
    }

    /// A lifecycle callback of an instance by its place, from 0, or `None` exactly where there are not so many.
    pub fn callback(&self, inst: Inst, when: When, at: u32) -> Option<&Value>
        ensures { option_map view_of (option_copied result) ≡ callback_in (live self.now.states inst.number) when at }
    {
        let instance = self.states.get(inst)?;
        let setup = &instance.setup;
        setup.callbacks.get(when, at)
    }

    /// Gives a value to those below an instance, in place of what it gave under the key earlier (`setContext`, Svelte 4 docs).
    /// Where the instance isn't live, nothing changes.
    pub fn set_context(&mut self, inst: Inst, key: Key, value: Value) -> Result<(), NoMemory>
        ensures ok { OnOk result (self.new ≡ set_up (λ s. record s { contexts = record { key = key; value = view_of value } ∷ s.contexts }) self.old inst.number) }
        ensures err { OnErr result (self.new ≡ self.old) }
    {
        match self.states.setup_mut(inst) {
            Some(setup) => setup.contexts.set(key, value),
            None => {
                drop(key);
                drop(value);
                Ok(())
            }
        }
    }

    /// Gives a constant of an instance its value. Where there is no such constant, nothing changes.
    pub fn set_constant(&mut self, inst: Inst, constant: u32, value: Value) -> Result<(), NoMemory>
        ensures ok { OnOk result (self.new ≡ set_up (λ s. record s { constants = slice_set s.constants constant (Some (view_of value)) }) self.old inst.number) }
        ensures err { OnErr result (self.new ≡ self.old) }
    {
        match self.states.setup_mut(inst) {
            Some(setup) => setup.constants.set(constant, value),
            None => {
                drop(value);
                Ok(())
            }
        }
    }

    /// The value of a constant of an instance, or `None` exactly where it has none.
    pub fn constant(&self, inst: Inst, constant: u32) -> Option<&Value>
        ensures { option_map view_of (option_copied result) ≡ constant_in (live self.now.states inst.number) constant }
    {
        let instance = self.states.get(inst)?;
        let setup = &instance.setup;
        setup.constants.get(constant)
    }

    /// From now on the listeners of an instance's tag are attached. Where the instance isn't live, nothing changes.
    pub fn attach(&mut self, inst: Inst)
        ensures { self.new ≡ set_up (λ s. record s { attached = true }) self.old inst.number }
    {
        if let Some(setup) = self.states.setup_mut(inst) {
            setup.attached = true;
        }
    }

    /// The tag of an instance is shown with these row locals and slot props. Where the instance isn't live, nothing changes.
    pub fn show_tag(&mut self, inst: Inst, locals: Locals)
        ensures { self.new ≡ set_up (λ s. record s { locals = locals }) self.old inst.number }
    {
        match self.states.setup_mut(inst) {
            Some(setup) => setup.locals = locals,
            None => drop(locals),
        }
    }
}
