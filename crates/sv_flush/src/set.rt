// What is handed down to instances.
ghost use Rattle.std.specs.Prelude.{◌≡◌, OnOk, option_copied};
ghost use Rattle.sv_flush.specs.Same.{same as same_tree};
ghost use Rattle.sv_flush.specs.Setting as spec;
ghost use Rattle.sv_meaning.specs.Gives.{EndsAs};
ghost use Rattle.sv_states.specs.States.{live, value_in};
ghost use Rattle.sv_value.specs.View.{view_of};

use crate::machine::Machine;
use sv_base::NoMemory;
use sv_meaning::{EvalError, assigned, component_of};
use sv_parts::Given;
use sv_store::Sub;
use sv_value::{Inst, Value, same};
use sv_view::View;
use sv_world::World;

/// Sets props of an instance in order, and hands nothing up. A bound prop that has the value already isn't set. `NotAStore` comes exactly where a prop
/// with a `$` name would get what is neither a store nor nothing, at the attribute that passes it.
pub fn set(world: &mut World, inst: Inst, props: &[Given]) -> Result<(), EvalError>
    ensures { EndsAs (λ u. u) result world.new (spec.set inst.number props.now world.old) }
{
    for prop in props {
        set_one(world, inst, prop)?;
    }
    Ok(())
}

fn set_one(world: &mut World, inst: Inst, prop: &Given) -> Result<(), EvalError>
    ensures { EndsAs (λ u. u) result world.new (spec.prop_set inst.number prop.now world.old) }
{
    if stays(world, inst, prop) {
        return Ok(());
    }
    hand(world, inst, prop)
}

// A prop takes the value, unless something speaks against it.
fn hand(world: &mut World, inst: Inst, prop: &Given) -> Result<(), EvalError>
    ensures { EndsAs (λ u. u) result world.new (spec.handed inst.number prop.now world.old) }
{
    let value = prop.value.get().share()?;
    let at = Sub {
        inst,
        cell: prop.cell,
    };
    assigned(world.states.hand_down(at, value), prop.span)
}

// Whether a bound prop has the value already.
fn stays(world: &World, inst: Inst, prop: &Given) -> bool
    ensures { result ≡ spec.stays world.now inst.number prop.now }
{
    prop.bound && has(world, inst, prop)
}

// Whether a prop has the value already.
fn has(world: &World, inst: Inst, prop: &Given) -> bool
    ensures { result ≡ spec.same_there (value_in (live world.now.states inst.number) prop.now.cell) prop.now.value }
{
    match world.cell(inst, prop.cell) {
        Some(cell) => is_same(&cell.value, prop.value.get()),
        None => false,
    }
}

fn is_same(old: &Value, new: &Value) -> bool
    ensures { result ≡ same_tree (view_of old.now) (view_of new.now) }
{
    same(old, new)
}

impl Machine<'_> {
    /// Gives an instance its owner's view, where its component shows slots.
    pub fn lend(&self, world: &mut World, inst: Inst, view: Option<&View>) -> Result<(), NoMemory>
        ensures { OnOk result (world.new ≡ spec.lent_if self.now.program.now inst.number (option_copied view.entry) world.old) }
    {
        let Some(view) = view else {
            return Ok(());
        };
        let Some(component) = component_of(self.program, world, inst) else {
            return Ok(());
        };
        let Some(cell) = component.view else {
            return Ok(());
        };
        world
            .states
            .set_owner_view(Sub { inst, cell }, view.share()?)
    }
}
