// Dispatched events, and the listeners of tags that hear of them.
ghost use Rattle.std.specs.Prelude.{◌≡◌, ◌≤◌, None, map, option_copied};
ghost use Rattle.sv_value.specs.View.{view_of};
ghost use Rattle.sv_meaning.specs.Calls as spec;
ghost use Rattle.sv_meaning.specs.Context.{ground_of, calls_of, mode_of};
ghost use Rattle.sv_meaning.specs.Functions as functions;
ghost use Rattle.sv_meaning.specs.Gives.{EndsAs, Evaluates};
ghost use Rattle.sv_meaning.specs.Listeners.{told, onward, heard_by, heard_attr, listener_view, heard_on, heard_value, handler_of};
ghost use Rattle.sv_meaning.specs.Parts.{part_value};

use crate::calls::call_value;
use crate::lookups::{handler_of, listens_to};
use crate::values::eval;
use std::alloc::Global;
use sv_base::{Span, Text};
use sv_code::{FragAttr, Part, Program};
use sv_meaning::{
    CALL_LIMIT, Context, EvalError, Hearer, Locals, answer, attrs_of, event_of, fault, first,
    hearer_of, listener_view, part_world, second, source_of,
};
use sv_ops::FaultKind;
use sv_states::DEPTH_LIMIT;
use sv_value::{Inst, Value};
use sv_view::View;
use sv_world::World;

/// An event that a component dispatched: its name, and its object.
#[derive(Clone, Copy)]
pub struct Dispatched<'a> {
    pub name: &'a Text,
    pub object: &'a Value,
}

// What the call of a dispatcher gives: `NotText` exactly where the name of the event is no text.
#[cycle(eval)]
pub(crate) fn dispatch(
    context: &Context,
    world: &mut World,
    args: &[Value],
    span: Span,
) -> Result<Value, EvalError>
    ensures means { EndsAs view_of result world.new (functions.dispatch ((mode_of (ground_of context.now)).tells (calls_of context.now) context.now.owner.number) span (spec.first (map view_of args.now)) (spec.second (map view_of args.now)) world.old) }
    ensures fewer { world.new.turn.steps ≤ world.old.turn.steps }
{
    let Value::Text(name) = first(args)? else {
        return Err(fault(FaultKind::NotText, span));
    };
    let made = event_of(context.alloc, &name, second(args)?);
    let object = answer(world, made, span)?;
    let event = Dispatched {
        name: &name,
        object: &object,
    };
    hear(context, world, event)?;
    Ok(Value::Bool(true))
}

// The listeners of the owner's own tag hear of an event; in a pure evaluation nobody does.
#[cycle(eval)]
fn hear(context: &Context, world: &mut World, event: Dispatched) -> Result<(), EvalError>
    ensures means { EndsAs (λ u. u) result world.new ((mode_of (ground_of context.now)).tells (calls_of context.now) context.now.owner.number event.entry.name.now (view_of event.entry.object.now) world.old) }
    ensures fewer { world.new.turn.steps ≤ world.old.turn.steps }
{
    if context.sight.is_some() {
        return Ok(());
    }
    tell(context, world, DEPTH_LIMIT, context.owner, event)
}

/// The listeners of an instance's tag hear of an event in the order of the text; one without an expression passes it on to the tag of the
/// component in whose markup it stands, through as many of those as there is room for.
#[cycle(eval)]
pub fn tell(
    context: &Context,
    world: &mut World,
    room: u32,
    inst: Inst,
    event: Dispatched,
) -> Result<(), EvalError>
    requires { option_copied context.now.sight ≡ None }
    ensures means { EndsAs (λ u. u) result world.new (told room context.now.program.now (calls_of context.now) inst.number event.entry.name.now (view_of event.entry.object.now) world.old) }
    ensures fewer { world.new.turn.steps ≤ world.old.turn.steps }
{
    if room == 0 {
        return Ok(());
    }
    let Some(hearer) = hearer_of(world, inst)? else {
        return Ok(());
    };
    tell_all(
        context,
        world,
        room - 1,
        &hearer,
        attrs_of(context.program, hearer.tag),
        event,
    )
}

#[cycle(eval)]
fn tell_all(
    context: &Context,
    world: &mut World,
    room: u32,
    hearer: &Hearer,
    attrs: &[FragAttr],
    event: Dispatched,
) -> Result<(), EvalError>
    requires { option_copied context.now.sight ≡ None }
    ensures means { EndsAs (λ u. u) result world.new (heard_by (onward room context.now.program.now (calls_of context.now) event.entry.name.now) context.now.program.now (calls_of context.now) event.entry.name.now hearer.now.owner.number hearer.now.locals attrs.now (view_of event.entry.object.now) world.old) }
    ensures fewer { world.new.turn.steps ≤ world.old.turn.steps }
{
    for attr in attrs {
        tell_attr(context, world, room, hearer, attr, event)?;
    }
    Ok(())
}

// An attribute hears of an event where it listens to it.
#[cycle(eval)]
fn tell_attr(
    context: &Context,
    world: &mut World,
    room: u32,
    hearer: &Hearer,
    attr: &FragAttr,
    event: Dispatched,
) -> Result<(), EvalError>
    requires { option_copied context.now.sight ≡ None }
    ensures means { EndsAs (λ u. u) result world.new (heard_attr (handler_of context.now.program.now attr.now) (onward room context.now.program.now (calls_of context.now) event.entry.name.now) context.now.program.now (calls_of context.now) event.entry.name.now hearer.now.owner.number hearer.now.locals (view_of event.entry.object.now) world.old) }
    ensures fewer { world.new.turn.steps ≤ world.old.turn.steps }
{
    let Some(handler) = handler_of(context.program, attr) else {
        return Ok(());
    };
    if !listens_to(context.program, handler, event.name) {
        return Ok(());
    }
    match &handler.listener {
        Some(part) => tell_part(context, world, hearer, part, event.object),
        None => tell(context, world, room, hearer.owner, event),
    }
}

// The expression of a listener is evaluated, and what it gives is called with the event.
#[cycle(eval)]
fn tell_part(
    context: &Context,
    world: &mut World,
    hearer: &Hearer,
    part: &Part,
    object: &Value,
) -> Result<(), EvalError>
    requires { option_copied context.now.sight ≡ None }
    ensures means { EndsAs (λ u. u) result world.new (heard_on (listener_view world.old hearer.now.owner.number hearer.now.locals) context.now.program.now (calls_of context.now) part.now (view_of object.now) world.old) }
    ensures fewer { world.new.turn.steps ≤ world.old.turn.steps }
{
    let Some(view) = listener_view(context.alloc, world, hearer)? else {
        return Ok(());
    };
    let value = eval_part(context.alloc, context.program, &view, part)?;
    call_listener(context, world, &value, object, part.span)
}

// What a listener's expression gave is called; nothing is passed over.
#[cycle(eval)]
fn call_listener(
    context: &Context,
    world: &mut World,
    listener: &Value,
    object: &Value,
    span: Span,
) -> Result<(), EvalError>
    ensures means { EndsAs (λ u. u) result world.new (heard_value context.now.program.now (calls_of context.now) span (view_of listener.now) (view_of object.now) world.old) }
    ensures fewer { world.new.turn.steps ≤ world.old.turn.steps }
{
    match listener {
        Value::Undefined | Value::Null => Ok(()),
        Value::Func(_) => {
            let at = source_of(context.program, listener, span);
            let answer = call_value(context, world, listener, &[object.share()?], at)?;
            drop(answer);
            Ok(())
        }
        _ => Err(fault(FaultKind::NotAFunction, span)),
    }
}

/// The value of a part on a view. It has steps and open calls of its own, and leaves nothing behind.
#[cycle(eval)]
pub fn eval_part(
    alloc: Global,
    program: &Program,
    view: &View,
    part: &Part,
) -> Result<Value, EvalError>
    ensures { Evaluates result (part_value program.now view.now part.now) }
{
    let mut world = part_world(alloc)?;
    let mut locals = Locals::shown(alloc, view.locals().as_slice())?;
    let context = Context {
        alloc,
        program,
        sight: Some(view),
        arrows: part.arrows,
        is_own: true,
        owner: view.inst(),
        room: CALL_LIMIT,
    };
    eval(&context, &mut world, &mut locals, &part.code)
}
