// What the page asks for: calls of functions of scripts and of the listeners of tags, and that derived stores settle.
ghost use Rattle.std.specs.Prelude.{◌≡◌, false, map};
ghost use Rattle.sv_value.specs.View.{view_of};
ghost use Rattle.sv_meaning.specs.Gives.{EndsAs};
ghost use Rattle.sv_meaning.specs.Listeners.{teller};
ghost use Rattle.sv_meaning.specs.Runs.{calls, called, settle};

use std::alloc::Global;
use sv_base::{Span, Text};
use sv_code::Program;
use sv_eval::{Dispatched, call_value, tell};
use sv_meaning::{CALL_LIMIT, Context, EvalError, script_context, source_of};
use sv_states::DEPTH_LIMIT;
use sv_value::{Inst, Value};
use sv_world::World;

/// Calls a function for the page: what can't be called stands where its source is written; what is no function is `NotAFunction` at the place
/// that is given. After a fault the world is what was done before it.
pub fn call(
    alloc: Global,
    program: &Program,
    world: &mut World,
    function: &Value,
    args: &[Value],
    span: Span,
) -> Result<Value, EvalError>
    ensures { EndsAs view_of result world.new (called program.now (view_of function.now) (map view_of args.now) span world.old) }
{
    let at = source_of(program, function, span);
    call_value(&page_context(alloc, program), world, function, args, at)
}

/// Tells the listeners of an instance's own tag of an event, in the order of the text; those without an expression pass it on to the tag of the
/// component in whose markup they stand.
pub fn tell_tag(
    alloc: Global,
    program: &Program,
    world: &mut World,
    inst: Inst,
    event: Dispatched,
) -> Result<(), EvalError>
    ensures { EndsAs (λ u. u) result world.new (teller program.now (calls program.now) inst.number event.entry.name.now (view_of event.entry.object.now) world.old) }
{
    tell(
        &page_context(alloc, program),
        world,
        DEPTH_LIMIT,
        inst,
        event,
    )
}

/// Derived stores settle, where no call is open: while one is pending, the one that was made first takes what its function gives on what its
/// inputs hold. After a fault the world is what was done before it.
pub fn settle(alloc: Global, program: &Program, world: &mut World) -> Result<(), EvalError>
    ensures { EndsAs (λ u. u) result world.new (settle program.now world.old) }
{
    sv_eval::settle(&page_context(alloc, program), world)
}

// Nobody's code: the page itself.
fn page_context(alloc: Global, program: &Program) -> Context<'_>
    ensures { result ≡ record { alloc = alloc; program = program.entry; sight = None; arrows = record { from = 0; to = 0 }; is_own = false; owner = record { key = 0; number = 0 }; room = CALL_LIMIT } }
{
    script_context(alloc, program, Inst { key: 0, number: 0 })
}
