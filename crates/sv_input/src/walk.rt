// The way of an event through the elements.
ghost use Rattle.std.specs.Prelude.{◌≡◌, map, option_copied, slice_get};
ghost use Rattle.sv_input.specs.Delivery.{seen};
ghost use Rattle.sv_input.specs.Walk as spec;
ghost use Rattle.sv_meaning.specs.Gives.{EndsAs};

use crate::binding::{tell_check, tell_value};
use crate::delivery::Delivery;
use crate::handling::{hears, tell_handler};
use sv_code::Handler;
use sv_document::{Directive, Element, Listener};
use sv_meaning::EvalError;
use sv_world::World;

// A handler of the program by its number.
fn handler_at<'a>(delivery: &Delivery<'a>, number: u32) -> Option<&'a Handler>
    ensures { option_copied result ≡ slice_get (seen delivery.now).program.handlers number }
{
    let handlers = delivery.desk.program.handlers.as_slice();
    handlers.get(number as usize)
}

// A directive is told of the event.
fn tell(
    delivery: &Delivery,
    world: &mut World,
    here: bool,
    listener: &Listener,
) -> Result<(), EvalError>
    ensures { EndsAs (λ u. u) result world.new (spec.told (seen delivery.now) here listener.now world.old) }
{
    match listener.at {
        Directive::Handler(number) => {
            let handler = handler_at(delivery, number);
            tell_handler(delivery, world, here, handler, listener)
        }
        Directive::BindValue(binding) => {
            tell_value(delivery, world, here, listener.inst, binding)
        }
        Directive::BindChecked(binding) => {
            tell_check(delivery, world, here, listener.inst, binding)
        }
    }
}

// The directives of an element are told in the order of the text.
fn tell_all(
    delivery: &Delivery,
    world: &mut World,
    here: bool,
    listeners: &[Listener],
) -> Result<(), EvalError>
    ensures { EndsAs (λ u. u) result world.new (spec.element_told (seen delivery.now) here listeners.now world.old) }
{
    for listener in listeners {
        tell(delivery, world, here, listener)?;
    }
    Ok(())
}

// Whether a directive ends the way of the event.
fn is_end(delivery: &Delivery, here: bool, directive: Directive) -> bool
    ensures { result ≡ spec.stops_at (seen delivery.now) here directive }
{
    let Directive::Handler(number) = directive else {
        return false;
    };
    match handler_at(delivery, number) {
        Some(handler) => hears(delivery, here, handler) && handler.modifiers.stop,
        None => false,
    }
}

// Whether the way of the event ends at an element.
fn stops(delivery: &Delivery, here: bool, element: &Element) -> bool
    ensures { result ≡ spec.stops (seen delivery.now) here element.now }
{
    let listeners = element.listeners.as_slice();
    listeners
        .iter()
        .any(|listener| is_end(delivery, here, listener.at))
}

// The elements round the target are told, from the innermost on, until the way ends.
fn climb(delivery: &Delivery, world: &mut World, outer: &[&Element]) -> Result<(), EvalError>
    ensures { EndsAs (λ u. u) result world.new (spec.climbed (seen delivery.now) (map (λ e. e.now) outer.now) world.old) }
{
    for element in outer {
        let element: &Element = element;
        tell_all(delivery, world, false, element.listeners.as_slice())?;
        if stops(delivery, false, element) {
            return Ok(());
        }
    }
    Ok(())
}

/// The target is told of the event, and then each element round it, until the way ends. After a fault the world is what was done
/// before it.
pub fn walk(delivery: &Delivery, world: &mut World, outer: &[&Element]) -> Result<(), EvalError>
    ensures { EndsAs (λ u. u) result world.new (spec.walked (seen delivery.now) (map (λ e. e.now) outer.now) world.old) }
{
    let target = delivery.target;
    tell_all(delivery, world, true, target.listeners.as_slice())?;
    if stops(delivery, true, target) {
        return Ok(());
    }
    climb(delivery, world, outer)
}
