// Reactive statements.
ghost use Rattle.std.specs.Prelude.{◌≡◌, ◌||◌, slice_get, option_copied};
ghost use Rattle.std.specs.List.{list_any};
ghost use Rattle.sv_states.specs.States.{live, is_dirty_in};
ghost use Rattle.sv_meaning.specs.Gives.{EndsAs};
ghost use Rattle.sv_meaning.specs.Runs.{each_in_turn, inner, is_due, run_at, run_due, run_reactive};

use std::alloc::Global;
use sv_code::{Arrows, CodeStmt, CodeStmtKind, Program, Run};
use sv_eval::run;
use sv_meaning::{CALL_LIMIT, Context, EvalError, Locals, component_of};
use sv_value::Inst;
use sv_world::World;

/// Whose reactive statements run, and whether all of them do, or those that are due.
#[derive(Clone, Copy)]
struct Rerun<'a> {
    alloc: Global,
    program: &'a Program,
    inst: Inst,
    all: bool,
    stmts: &'a [CodeStmt],
}

/// Runs the reactive statements of an instance in their order, all of them, or each where a cell that it reads has changed since the last
/// snapshot as its turn comes. After a fault the world is what was done before it.
pub fn run_reactive(
    alloc: Global,
    program: &Program,
    world: &mut World,
    inst: Inst,
    all: bool,
) -> Result<(), EvalError>
    ensures { EndsAs (λ u. u) result world.new (run_reactive program.now inst.number all world.old) }
{
    let Some(component) = component_of(program, world, inst) else {
        return Ok(());
    };
    let rerun = Rerun {
        alloc,
        program,
        inst,
        all,
        stmts: component.script.as_slice(),
    };
    run_each(&rerun, world, component.runs.as_slice())
}

fn run_each(rerun: &Rerun, world: &mut World, runs: &[Run]) -> Result<(), EvalError>
    ensures { EndsAs (λ u. u) result world.new (each_in_turn (run_due rerun.now.program.now rerun.now.all rerun.now.inst.number rerun.now.stmts.now) runs.now world.old) }
{
    for one in runs {
        run_one(rerun, world, one)?;
    }
    Ok(())
}

fn run_one(rerun: &Rerun, world: &mut World, one: &Run) -> Result<(), EvalError>
    ensures { EndsAs (λ u. u) result world.new (run_due rerun.now.program.now rerun.now.all rerun.now.inst.number rerun.now.stmts.now one.now world.old) }
{
    if !is_due(rerun, world, one) {
        return Ok(());
    }
    match rerun.stmts.get(one.stmt as usize) {
        Some(stmt) => run_stmt(rerun, world, stmt),
        None => Ok(()),
    }
}

fn is_due(rerun: &Rerun, world: &World, one: &Run) -> bool
    ensures { result ≡ is_due rerun.now.all rerun.now.inst.number one.now world.now }
{
    rerun.all || has_dirty(world, rerun.inst, one.reads.as_slice())
}

fn has_dirty(world: &World, inst: Inst, cells: &[u8]) -> bool
    ensures { result ≡ list_any (is_dirty_in (live world.now.states inst.number)) cells.now }
{
    cells.iter().any(|cell| world.is_dirty(inst, *cell))
}

fn run_stmt(rerun: &Rerun, world: &mut World, stmt: &CodeStmt) -> Result<(), EvalError>
    ensures { EndsAs (λ u. u) result world.new (run_at rerun.now.program.now rerun.now.inst.number (Some stmt.now) world.old) }
{
    let context = Context {
        alloc: rerun.alloc,
        program: rerun.program,
        sight: None,
        arrows: Arrows { from: 0, to: 0 },
        is_own: false,
        owner: rerun.inst,
        room: CALL_LIMIT,
    };
    let mut locals = Locals::new(rerun.alloc);
    let end = run(&context, world, &mut locals, inner_of(stmt))?;
    drop(end);
    Ok(())
}

// The statement behind the mark of a reactive one.
fn inner_of(stmt: &CodeStmt) -> &CodeStmt
    ensures { result.now ≡ inner stmt.now }
{
    match stmt.kind.get() {
        CodeStmtKind::React(inner) => inner,
        _ => stmt,
    }
}
