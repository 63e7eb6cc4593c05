// Reads a file of steps.
ghost use Rattle.std.specs.Prelude.{◌≡◌, ◌≤◌, Some, length, map};
ghost use Rattle.serde_json.specs.View.{view};
ghost use Rattle.sv_steps.specs.StepsFile.{Answers, each_step, listed, in_json, steps_of};

use crate::form::{items_in, step_of};
use crate::step::Step;
use serde_json::Value;
use std::alloc::Global;
use sv_base::EVENT_LIMIT;
use sv_events::EventsError;

// The steps of a list that isn't too long.
fn each_step(alloc: Global, values: &[Value]) -> Result<Vec<Step>, EventsError>
    requires { length values.now ≤ EVENT_LIMIT }
    ensures { Answers result (each_step 0 (map view values.now)) }
{
    let mut steps = Vec::new(alloc);
    for (at, value) in values.iter().enumerate() {
        let Some(step) = step_of(alloc, value)? else {
            return Err(EventsError::BadShape(at as u32));
        };
        steps.push(step)?;
    }
    Ok(steps)
}

// The steps of a list.
fn listed(alloc: Global, values: &[Value]) -> Result<Vec<Step>, EventsError>
    ensures { Answers result (listed (map view values.now)) }
{
    if values.len() > EVENT_LIMIT {
        return Err(EventsError::TooMany);
    }
    each_step(alloc, values)
}

// The steps of a JSON value.
fn in_json(alloc: Global, value: &Value) -> Result<Vec<Step>, EventsError>
    ensures { Answers result (in_json (Some (view value.now))) }
{
    match items_in(value) {
        Some(values) => listed(alloc, values),
        None => Err(EventsError::BadForm),
    }
}

/// The steps that the bytes of a file tell, in order, or the first cause why they tell none: `NotJson`; `BadForm`, where the JSON is no
/// object with the version 3 and a list of steps alone; `TooMany`; and `BadShape` with the number of the first that is neither an event of
/// version 2 nor an expectation.
///
/// An expectation is an object with `expect`, a text, and one of: `count`, a whole number below 2 ^ 32; `text`, a text; `attr`, a text that
/// isn't empty, together with `is`, a text or null.
pub fn read_steps(alloc: Global, bytes: &[u8]) -> Result<Vec<Step>, EventsError>
    ensures { Answers result (steps_of bytes.now) }
{
    match Value::from_slice(alloc, bytes) {
        Ok(value) => in_json(alloc, &value),
        Err(error) if error.is_memory() => Err(EventsError::NoMemory),
        Err(_) => Err(EventsError::NotJson),
    }
}
