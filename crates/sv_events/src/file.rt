// Reads an events file.
ghost use Rattle.std.specs.Prelude.{◌≡◌, ◌≤◌, length, map, IfOk};
ghost use Rattle.serde_json.specs.View.{view};
ghost use Rattle.sv_events.specs.EventsFile.{Answers, each_event, listed, in_json, events_of};

use crate::event::Event;
use crate::form::{Version, event_of, items_in, version_of};
use crate::refusal::EventsError;
use serde_json::Value;
use std::alloc::Global;
use sv_base::{EVENT_LIMIT, NoMemory};

// The events of a list that isn't too long.
fn each_event(alloc: Global, version: Version, values: &[Value]) -> Result<Vec<Event>, EventsError>
    requires { length values.now ≤ EVENT_LIMIT }
    ensures { Answers result (each_event version 0 (map view values.now)) }
{
    let mut events = Vec::new(alloc);
    for (at, value) in values.iter().enumerate() {
        let Some(event) = event_of(alloc, version, value)? else {
            return Err(EventsError::BadShape(at as u32));
        };
        events.push(event)?;
    }
    Ok(events)
}

// The events of a list.
fn listed(alloc: Global, version: Version, values: &[Value]) -> Result<Vec<Event>, EventsError>
    ensures { Answers result (listed version (map view values.now)) }
{
    if values.len() > EVENT_LIMIT {
        return Err(EventsError::TooMany);
    }
    each_event(alloc, version, values)
}

// The events of a JSON value.
fn in_json(alloc: Global, value: &Value) -> Result<Vec<Event>, EventsError>
    ensures { Answers result (in_json (Some (view value.now))) }
{
    let Some(version) = version_of(value) else {
        return Err(EventsError::BadForm);
    };
    let Some(values) = items_in(value) else {
        return Err(EventsError::BadForm);
    };
    listed(alloc, version, values)
}

/// The events that the bytes of an events file tell, in order, or the first cause why they tell none.
pub fn read_events(alloc: Global, bytes: &[u8]) -> Result<Vec<Event>, EventsError>
    ensures { Answers result (events_of bytes.now) }
{
    match Value::from_slice(alloc, bytes) {
        Ok(value) => in_json(alloc, &value),
        Err(error) if error.is_memory() => Err(EventsError::NoMemory),
        Err(_) => Err(EventsError::NotJson),
    }
}
