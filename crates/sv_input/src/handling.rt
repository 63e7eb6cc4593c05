// Listeners of elements.
ghost use Rattle.std.specs.Prelude.{◌≡◌, IfOk, option_copied};
ghost use Rattle.sv_value.specs.View.{view_of};
ghost use Rattle.sv_input.specs.Delivery.{seen};
ghost use Rattle.sv_input.specs.Handling as spec;
ghost use Rattle.sv_meaning.specs.Gives.{EndsAs};
ghost use Rattle.sv_meaning.specs.Listeners.{listener_view};
ghost use Rattle.sv_meaning.specs.Outcome.{answered};
ghost use Rattle.sv_input.specs.Object.{object_of};

use crate::delivery::{Delivery, Desk};
use crate::object::object;
use std::alloc::Global;
use sv_base::{NoMemory, Span};
use sv_code::{Handler, Part};
use sv_document::Listener;
use sv_eval::{Dispatched, eval_part};
use sv_meaning::{EvalError, answer, fault};
use sv_ops::FaultKind;
use sv_scripts::{call, tell_tag};
use sv_value::{Inst, Value};
use sv_view::View;
use sv_world::World;

/// Whether a handler hears of the event: it has its name, and with the modifier `self` its element is the target.
pub fn hears(delivery: &Delivery, here: bool, handler: &Handler) -> bool
    ensures { result ≡ spec.hears (seen delivery.now) here handler.now }
{
    let names = &delivery.desk.program.names;
    names.is_text(handler.name, delivery.desk.event.name.as_str())
        && (here || !handler.modifiers.only_self)
}

// The view on which the expression of a listener is evaluated: the present cells of its instance, with the locals that are seen there.
fn listener_view(
    alloc: Global,
    world: &World,
    listener: &Listener,
) -> Result<Option<View>, NoMemory>
    ensures { IfOk result (λ view. view ≡ listener_view world.now listener.now.inst listener.now.locals) }
{
    let Some(view) = world.present(alloc, listener.inst)? else {
        return Ok(None);
    };
    let view = view.with_locals(listener.locals.share()?)?;
    Ok(Some(view))
}

// The object of the event, whose limits count at a place.
fn object_at(delivery: &Delivery, world: &mut World, at: Span) -> Result<Value, EvalError>
    ensures { EndsAs view_of result world.new (answered at (object_of (seen delivery.now)) world.old) }
{
    let made = object(delivery);
    answer(world, made, at)
}

// The listeners of the component's own tag are told.
fn pass_on(delivery: &Delivery, world: &mut World, at: Span, inst: Inst) -> Result<(), EvalError>
    ensures { EndsAs (λ u. u) result world.new (spec.passed_on (seen delivery.now) at inst.number world.old) }
{
    let object = object_at(delivery, world, at)?;
    let Desk {
        alloc,
        program,
        event,
    } = *delivery.desk;
    let event = Dispatched {
        name: &event.name,
        object: &object,
    };
    tell_tag(alloc, program, world, inst, event)
}

// A function is called with the event's object.
fn call_with(
    delivery: &Delivery,
    world: &mut World,
    at: Span,
    span: Span,
    function: &Value,
) -> Result<(), EvalError>
    ensures { EndsAs (λ u. u) result world.new (spec.with_object (seen delivery.now) at (spec.called_with (seen delivery.now) span (view_of function.now)) world.old) }
{
    let object = object_at(delivery, world, at)?;
    let desk = delivery.desk;
    call(desk.alloc, desk.program, world, function, &[object], span)?;
    Ok(())
}

// What the expression of a handler gave is called.
fn call_value(
    delivery: &Delivery,
    world: &mut World,
    at: Span,
    span: Span,
    value: &Value,
) -> Result<(), EvalError>
    ensures { EndsAs (λ u. u) result world.new (spec.heard_value (seen delivery.now) at span (view_of value.now) world.old) }
{
    match value {
        Value::Undefined | Value::Null => Ok(()),
        Value::Func(_) => call_with(delivery, world, at, span, value),
        _ => Err(fault(FaultKind::NotAFunction, span)),
    }
}

// The expression of a handler is evaluated, and what it gives is called.
fn tell_part(
    delivery: &Delivery,
    world: &mut World,
    at: Span,
    part: &Part,
    listener: &Listener,
) -> Result<(), EvalError>
    ensures { EndsAs (λ u. u) result world.new (spec.heard (seen delivery.now) at (Some part.now) listener.now world.old) }
{
    let desk = delivery.desk;
    let Some(view) = listener_view(desk.alloc, world, listener)? else {
        return Ok(());
    };
    let value = eval_part(desk.alloc, desk.program, &view, part)?;
    call_value(delivery, world, at, part.span, &value)
}

/// What a handler of an element does, where its element is the target or not.
pub fn tell_handler(
    delivery: &Delivery,
    world: &mut World,
    here: bool,
    handler: Option<&Handler>,
    listener: &Listener,
) -> Result<(), EvalError>
    ensures { EndsAs (λ u. u) result world.new (spec.handler_told (seen delivery.now) here (option_copied handler.entry) listener.now world.old) }
{
    let Some(handler) = handler else {
        return Ok(());
    };
    if !hears(delivery, here, handler) {
        return Ok(());
    }
    match &handler.listener {
        Some(part) => tell_part(delivery, world, handler.span, part, listener),
        None => pass_on(delivery, world, handler.span, listener.inst),
    }
}
