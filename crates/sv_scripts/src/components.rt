// The scripts of components as they are made.
ghost use Rattle.std.specs.Prelude.{◌≡◌, None, map, IfOk, OnOk, option_copied};
ghost use Rattle.sv_meaning.specs.Gives.{EndsAs};
ghost use Rattle.sv_meaning.specs.Outcome.{given, then_do};
ghost use Rattle.sv_meaning.specs.Runs.{cell_opened, cells_opened, view_opened, name_subscribed, each_in_turn, opened, name_opened, run_component, run_top};
ghost use Rattle.sv_meaning.specs.Statements as spec;
ghost use Rattle.sv_ops.specs.declared.faults.FaultKind.TheVariants.{UseBeforeInit};
ghost use Rattle.sv_scripts.specs.Props.{given_as};
ghost use Rattle.sv_states.specs.States.{live, value_in};
ghost use Rattle.sv_view.specs.Constants.{module_constant_at};

use crate::script::{Given, Script};
use std::alloc::Global;
use sv_base::NoMemory;
use sv_code::{Component, Known, Program, StoreCell};
use sv_meaning::{EvalError, component_of, fault, subscribe};
use sv_ops::FaultKind;
use sv_store::Sub;
use sv_value::{Inst, Value};
use sv_world::World;

/// Runs the script of an instance with the props that were given: the `$` names of what module files give, and of the variables that are there
/// already, begin; then the statements run in order, but for the reactive ones. After a fault the world is what was done before it. An instance that isn't live has no
/// script.
pub fn run_top(
    alloc: Global,
    program: &Program,
    world: &mut World,
    inst: Inst,
    props: &[Given],
) -> Result<(), EvalError>
    ensures { EndsAs (λ u. u) result world.new (run_top program.now inst.number (map given_as props.now) world.old) }
{
    let Some(component) = component_of(program, world, inst) else {
        return Ok(());
    };
    let script = Script {
        alloc,
        program,
        owner: inst,
        props,
    };
    open(world, inst, component);
    script.set_functions(world, component.script.as_slice())?;
    subscribe_names(world, inst, component.stores.as_slice())?;
    script.run(world, component.script.as_slice())
}

// Cells that are there before any statement ran.
fn open(world: &mut World, inst: Inst, component: &Component)
    ensures { world.new ≡ view_opened inst.number component.now.view (cells_opened inst.number component.now.reactive world.old) }
{
    open_cells(world, inst, component.reactive.as_slice());
    if let Some(cell) = component.view {
        open_cell(world, inst, cell);
    }
}

fn open_cells(world: &mut World, inst: Inst, cells: &[u8])
    ensures { world.new ≡ cells_opened inst.number cells.now world.old }
{
    for cell in cells {
        open_cell(world, inst, *cell);
    }
}

fn open_cell(world: &mut World, inst: Inst, cell: u8)
    ensures { world.new ≡ cell_opened inst.number world.old cell }
{
    world.states.declare(Sub { inst, cell }, Value::Undefined);
}

// The `$` names of what is imported in braces, and of the variables that are there, are subscribed.
fn subscribe_names(world: &mut World, inst: Inst, stores: &[StoreCell]) -> Result<(), EvalError>
    ensures { EndsAs (λ u. u) result world.new (each_in_turn (name_subscribed inst.number) stores.now world.old) }
{
    for store in stores {
        subscribe_name(world, inst, store)?;
    }
    Ok(())
}

fn subscribe_name(world: &mut World, inst: Inst, store: &StoreCell) -> Result<(), EvalError>
    ensures { EndsAs (λ u. u) result world.new (name_subscribed inst.number store.now world.old) }
{
    match store.holder {
        Known::Export { file, constant } => subscribe_export(world, inst, store, file, constant),
        Known::Constant(_) => Ok(()),
        Known::Cell(cell) => subscribe_variable(world, inst, store, cell),
        Known::Local(_) | Known::Life(_) | Known::Writable | Known::Derived | Known::BuiltIn(_) =>
            Err(fault(FaultKind::NotAStore, store.span)),
    }
}

// What a module file gives is subscribed, where it is a store.
fn subscribe_export(
    world: &mut World,
    inst: Inst,
    store: &StoreCell,
    file: u16,
    constant: u32,
) -> Result<(), EvalError>
    ensures { EndsAs (λ u. u) result world.new (then_do (given UseBeforeInit store.now.span (module_constant_at world.old.modules file constant) world.old) (spec.subscribe inst.number store.now.cell None store.now.span)) }
{
    let Some(value) = world.modules.get(file, constant) else {
        return Err(fault(FaultKind::UseBeforeInit, store.span));
    };
    let value = value.share()?;
    let at = Sub {
        inst,
        cell: store.cell,
    };
    subscribe(world, at, None, &value, store.span)
}

// A variable that is there already has its `$` name from the start.
fn subscribe_variable(
    world: &mut World,
    inst: Inst,
    store: &StoreCell,
    cell: u8,
) -> Result<(), EvalError>
    ensures { EndsAs (λ u. u) result world.new (name_opened (value_in (live world.old.states inst.number) cell) inst.number cell store.now world.old) }
{
    let Some(held) = world.cell(inst, cell) else {
        return Ok(());
    };
    let value = held.value.share()?;
    let at = Sub {
        inst,
        cell: store.cell,
    };
    subscribe(world, at, Some(cell), &value, store.span)
}
