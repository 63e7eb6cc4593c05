// Derived stores: how they are made, and how they settle behind what changes a store.
ghost use Rattle.std.specs.Prelude.{◌≡◌, ◌≤◌, ◌∷◌, [], map, option_copied, OnOk};
ghost use Rattle.sv_derived.specs.Derived.{Recipe as Recipes, found};
ghost use Rattle.sv_value.specs.View.{view_of};
ghost use Rattle.sv_meaning.specs.Calls as spec;
ghost use Rattle.sv_meaning.specs.Calls.{call_value as called};
ghost use Rattle.sv_meaning.specs.Computes.{Computes};
ghost use Rattle.sv_meaning.specs.Context.{ground_of, calls_of};
ghost use Rattle.sv_meaning.specs.Derived.{apart, rejoined, derived_ground};
ghost use Rattle.sv_meaning.specs.Functions.{caller, silent};
ghost use Rattle.sv_meaning.specs.Gives.{Gives, EndsAs};
ghost use Rattle.sv_meaning.specs.Settling as settling;
ghost use Rattle.sv_meaning.specs.Settling.{settled};
ghost use Rattle.sv_meaning.specs.Sight.{set};

use crate::calls::call_value;
use std::mem;
use sv_base::Span;
use sv_code::{Arrows, Known};
use sv_meaning::{
    Computation, Context, EvalError, Locals, answer, computation_of, put_store, recipe_of,
};
use sv_value::Value;
use sv_view::View;
use sv_world::{Turn, World};

/// Assigns a value to a name, and gives it; `UseBeforeInit` exactly where its declaration hasn't run, or else `NoMember` where a derived store would
/// be set. Then derived stores settle. A pure evaluation changes no cell.
#[cycle(eval)]
pub fn set(
    context: &Context,
    world: &mut World,
    locals: &mut Locals,
    name: Known,
    value: Value,
    span: Span,
) -> Result<Value, EvalError>
    ensures means { Gives view_of result locals.new world.new (set (ground_of context.now) (calls_of context.now) context.now.owner.number name (view_of value) span locals.old world.old) }
    ensures fewer { world.new.turn.steps ≤ world.old.turn.steps }
{
    let value = context.put(world, locals, name, value, span)?;
    if matches!(name, Known::Cell(_)) && context.sight.is_none() {
        settle(context, world)?;
    }
    Ok(value)
}

// A store takes a value; `NoMember` exactly where it is a derived one. Then derived stores settle.
#[cycle(eval)]
pub(crate) fn set_store(
    context: &Context,
    world: &mut World,
    id: u32,
    value: Value,
    span: Span,
) -> Result<Value, EvalError>
    ensures means { EndsAs view_of result world.new (spec.set_store (calls_of context.now) span id (view_of value) world.old) }
    ensures fewer { world.new.turn.steps ≤ world.old.turn.steps }
{
    put_store(world, id, value, span)?;
    settle(context, world)?;
    Ok(Value::Undefined)
}

/// Derived stores settle: while one is pending, the one that was made first takes what its function gives on its inputs' present values.
#[cycle(eval)]
pub fn settle(context: &Context, world: &mut World) -> Result<(), EvalError>
    ensures means { EndsAs (λ u. u) result world.new (settled (calls_of context.now).derives world.old) }
    ensures fewer { world.new.turn.steps ≤ world.old.turn.steps }
{
    for _round in 0..world.states.derived_count() {
        let Some(id) = world.states.pending() else {
            return Ok(());
        };
        compute(context, world, id)?;
    }
    Ok(())
}

// A derived store takes what its function gives.
#[cycle(eval)]
fn compute(context: &Context, world: &mut World, id: u32) -> Result<(), EvalError>
    ensures means { EndsAs (λ u. u) result world.new (settling.compute (calls_of context.now).derives id (found world.old.states.derived id) world.old) }
    ensures fewer { world.new.turn.steps ≤ world.old.turn.steps }
{
    let Some(derived) = world.states.derived(id) else {
        return Ok(());
    };
    let computation = computation_of(context.alloc, world, derived.owner, &derived.recipe)?;
    let value = derive(context, world, computation)?;
    world.states.settle_one(id, value)?;
    Ok(())
}

/// A call of `derived`: a new store, which is computed at once.
#[cycle(eval)]
pub(crate) fn make_derived(
    context: &Context,
    world: &mut World,
    args: &[Value],
    span: Span,
) -> Result<Value, EvalError>
    ensures means { EndsAs view_of result world.new (spec.make_derived context.now.program.now (calls_of context.now) context.now.owner.number span (map view_of args.now) world.old) }
    ensures fewer { world.new.turn.steps ≤ world.old.turn.steps }
{
    let recipe = recipe_of(context.alloc, context.program, world, args, span)?;
    let computation = computation_of(context.alloc, world, context.owner, &recipe)?;
    let value = derive(context, world, computation)?;
    let id = world.states.make_derived(context.owner, recipe, value)?;
    Ok(Value::Store(id))
}

// What a derived store comes to; in a pure evaluation none is computed.
#[cycle(eval)]
fn derive(
    context: &Context,
    world: &mut World,
    computation: Computation,
) -> Result<Value, EvalError>
    ensures means { (r : Recipes) → Computes computation computation.owner.number r world.old.states.stores → EndsAs view_of result world.new ((calls_of context.now).derives computation.owner.number r world.old) }
    ensures rest { OnOk result (world.new ≡ record world.old { turn = world.new.turn }) }
    ensures fewer { world.new.turn.steps ≤ world.old.turn.steps }
{
    let Computation {
        owner,
        argument,
        function,
        span,
    } = computation;
    if context.sight.is_some() {
        drop(argument);
        drop(function);
        return Ok(Value::Undefined);
    }
    let argument = answer(world, argument, span)?;
    let view = world.constants_view(context.alloc, owner)?;
    call_apart(context, world, &view, &function, argument, span)
}

// What a function gives apart from the world, but in its turn.
#[cycle(eval)]
fn call_apart(
    context: &Context,
    world: &mut World,
    view: &View,
    function: &Value,
    argument: Value,
    span: Span,
) -> Result<Value, EvalError>
    ensures means { EndsAs view_of result world.new (rejoined world.old (called (caller silent (derived_ground context.now.program.now view.now) context.now.room) span (view_of function.now) (view_of argument ∷ []) (apart world.old))) }
    ensures rest { world.new ≡ record world.old { turn = world.new.turn } }
    ensures fewer { world.new.turn.steps ≤ world.old.turn.steps }
{
    let inside = Context {
        sight: Some(view),
        arrows: Arrows { from: 0, to: 0 },
        is_own: false,
        ..*context
    };
    let mut apart = World::new(context.alloc)?;
    apart.turn = mem::replace(&mut world.turn, Turn::new(context.alloc));
    let gave = call_value(&inside, &mut apart, function, &[argument], span);
    world.turn = mem::replace(&mut apart.turn, Turn::new(context.alloc));
    gave
}
