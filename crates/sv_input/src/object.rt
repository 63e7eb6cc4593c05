// The objects of events.
ghost use Rattle.std.specs.Prelude.{◌≡◌, ◌∷◌, [], IfOk, option_copied};
ghost use Rattle.sv_input.specs.Delivery.{seen};
ghost use Rattle.sv_input.specs.Object as spec;
ghost use Rattle.sv_ops.specs.Answer.{object_made};
ghost use Rattle.sv_ops.specs.Answers.{Answers};
ghost use Rattle.sv_value.specs.View.{view_of, entry_of};

use crate::delivery::Delivery;
use std::alloc::Global;
use sv_base::{NoMemory, Text};
use sv_ops::{Given, OpError, object_of};
use sv_tokens::Typed;
use sv_value::Value;

// The text that the target shows as its value once it took the event, or an empty one.
fn value_shown<'a>(delivery: &Delivery<'a>) -> &'a str
    ensures { result.now ≡ spec.value_shown (seen delivery.now) }
{
    match delivery.typed {
        Some(Typed::Text(text)) => text.as_str(),
        _ => delivery.target.shown_value().unwrap_or(""),
    }
}

// Whether the target shows as checked once it took the event.
fn checked_shown(delivery: &Delivery) -> bool
    ensures { result ≡ spec.checked_shown (seen delivery.now) }
{
    match delivery.typed {
        Some(Typed::Checked(checked)) => *checked,
        _ => delivery.target.is_checked(),
    }
}

// A key that was recorded.
fn key_value(key: Option<&Text>) -> Result<Value, NoMemory>
    ensures { IfOk result (λ value. view_of value ≡ spec.key_value (option_copied key.entry)) }
{
    match key {
        Some(key) => Ok(Value::Text(key.share()?)),
        None => Ok(Value::Undefined),
    }
}

fn field(alloc: Global, key: &str, value: Value) -> Result<(Text, Value), NoMemory>
    ensures { IfOk result (λ field. entry_of field ≡ (key.now, view_of value)) }
{
    Ok((Text::new(alloc, key)?, value))
}

// An object with three fields.
fn object_with(
    alloc: Global,
    a: (Text, Value),
    b: (Text, Value),
    c: (Text, Value),
) -> Result<Given, OpError>
    ensures { Answers result (object_made (entry_of a ∷ (entry_of b ∷ (entry_of c ∷ [])))) }
{
    object_of(alloc, vec![in alloc; a, b, c]?)
}

// The object of the target.
fn target_object(delivery: &Delivery) -> Result<Given, OpError>
    ensures { Answers result (object_made (spec.target_fields (seen delivery.now))) }
{
    let alloc = delivery.desk.alloc;
    let text = Text::new(alloc, delivery.target.shown_id().unwrap_or(""))?;
    let id = field(alloc, "id", Value::Text(text))?;
    let text = Text::new(alloc, value_shown(delivery))?;
    let value = field(alloc, "value", Value::Text(text))?;
    let checked = field(alloc, "checked", Value::Bool(checked_shown(delivery)))?;
    object_with(alloc, id, value, checked)
}

// The object of the event with that of its target.
fn event_object(delivery: &Delivery, target: Value) -> Result<Given, OpError>
    ensures { Answers result (object_made (spec.event_fields (seen delivery.now) (view_of target))) }
{
    let alloc = delivery.desk.alloc;
    let event = delivery.desk.event;
    let name = field(alloc, "type", Value::Text(event.name.share()?))?;
    let key = field(alloc, "key", key_value(event.key.as_ref())?)?;
    let target = field(alloc, "target", target)?;
    object_with(alloc, name, key, target)
}

/// The object of an event as listeners are handed it; `Large` exactly where it would be too large.
pub fn object(delivery: &Delivery) -> Result<Given, OpError>
    ensures { Answers result (spec.object_of (seen delivery.now)) }
{
    let target = target_object(delivery)?;
    event_object(delivery, target.value)
}
