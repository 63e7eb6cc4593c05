// Binding callbacks.
ghost use Rattle.std.specs.Prelude.{◌≡◌, map};
ghost use Rattle.sv_flush.specs.Flush as spec;
ghost use Rattle.sv_flush.specs.Meets.{Meets};
ghost use Rattle.sv_flush.specs.Waits.{binding_of};
ghost use Rattle.sv_meaning.specs.Gives.{EndsAs};
ghost use Rattle.sv_meaning.specs.Runs.{each_in_turn};

use crate::machine::{Machine, told};
use crate::page::Page;
use crate::waiting::Binding;
use sv_meaning::{EvalError, assigned};
use sv_parts::PatchError;
use sv_scripts::settle;
use sv_world::World;

impl Machine<'_> {
    /// Runs the binding callbacks, the last first. At the directive of one comes `NoMember` exactly where it would set a derived store, and `NotAStore`
    /// exactly where it would assign a `$` name that looks at no store, or give a variable with a `$` name what is neither a store nor nothing.
    pub fn bind_all(&self, page: &mut Page) -> Result<(), PatchError>
        ensures { Meets result page.new (spec.all_bound self.now.program.now page.old) }
    {
        let bindings = page.rounds.take_bindings();
        told(self.bind_each(&mut page.world, &bindings))
    }

    fn bind_each(&self, world: &mut World, bindings: &[Binding]) -> Result<(), EvalError>
        ensures { EndsAs (λ u. u) result world.new (each_in_turn (spec.bound self.now.program.now) (map binding_of bindings.now) world.old) }
    {
        for binding in bindings {
            self.bind_one(world, binding)?;
        }
        Ok(())
    }

    // A prop is bound to a variable of the owner, and then derived stores settle.
    fn bind_one(&self, world: &mut World, binding: &Binding) -> Result<(), EvalError>
        ensures { EndsAs (λ u. u) result world.new (spec.bound self.now.program.now (binding_of binding.now) world.old) }
    {
        bind_at(world, binding)?;
        settle(self.alloc, self.program, world)
    }
}

// A prop is bound to a variable of the owner, unless something speaks against it.
fn bind_at(world: &mut World, binding: &Binding) -> Result<(), EvalError>
    ensures { EndsAs (λ u. u) result world.new (spec.bound_at (binding_of binding.now) world.old) }
{
    let states = &mut world.states;
    assigned(states.bind_up(binding.child, binding.bound), binding.span)
}
