// Module files.
ghost use Rattle.std.specs.Prelude.{◌≡◌, map, IfOk, OnOk, slice_get};
ghost use Rattle.sv_meaning.specs.Gives.{EndsAs};
ghost use Rattle.sv_meaning.specs.Runs.{constant_count, modules_opened, run_module, run_modules, each_in_turn};

use crate::script::Script;
use std::alloc::Global;
use sv_base::NoMemory;
use sv_code::{FileCode, Program, ProgramFile};
use sv_meaning::EvalError;
use sv_value::Inst;
use sv_view::Modules;
use sv_world::World;

/// Runs the module files once each, a file behind those that it imports. After a fault the world is what was done before it.
pub fn run_modules(alloc: Global, program: &Program, world: &mut World) -> Result<(), EvalError>
    ensures { EndsAs (λ u. u) result world.new (run_modules program.now world.old) }
{
    open_modules(alloc, program, world)?;
    run_each(alloc, program, world, program.modules.as_slice())
}

// The constants of all module files stand without values.
fn open_modules(alloc: Global, program: &Program, world: &mut World) -> Result<(), NoMemory>
    ensures { OnOk result (world.new ≡ modules_opened program.now world.old) }
{
    let counts = constant_counts(alloc, program.files.as_slice())?;
    world.modules = Modules::new(alloc, &counts)?;
    Ok(())
}

fn constant_counts(alloc: Global, files: &[ProgramFile]) -> Result<Vec<u32>, NoMemory>
    ensures { IfOk result (λ counts. counts.items ≡ map constant_count files.now) }
{
    let mut counts = Vec::new(alloc);
    for file in files {
        counts.push(constant_count(file))?;
    }
    Ok(counts)
}

fn constant_count(file: &ProgramFile) -> u32
    ensures { result ≡ constant_count file.now }
{
    match &file.code {
        FileCode::Component(_) => 0,
        FileCode::Module(module) => module.constants,
    }
}

fn run_each(
    alloc: Global,
    program: &Program,
    world: &mut World,
    modules: &[u16],
) -> Result<(), EvalError>
    ensures { EndsAs (λ u. u) result world.new (each_in_turn (λ n. run_module program.now (slice_get program.now.files n)) modules.now world.old) }
{
    for module in modules {
        run_one(alloc, program, world, *module)?;
    }
    Ok(())
}

fn run_one(
    alloc: Global,
    program: &Program,
    world: &mut World,
    number: u16,
) -> Result<(), EvalError>
    ensures { EndsAs (λ u. u) result world.new (run_module program.now (slice_get program.now.files number) world.old) }
{
    let Some(file) = program.files.as_slice().get(number as usize) else {
        return Ok(());
    };
    let FileCode::Module(module) = &file.code else {
        return Ok(());
    };
    let script = Script {
        alloc,
        program,
        owner: Inst { key: 0, number: 0 },
        props: &[],
    };
    let stmts = module.script.as_slice();
    script.set_functions(world, stmts)?;
    script.run(world, stmts)
}
