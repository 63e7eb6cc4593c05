// Events as they are written in rows.
use std::alloc::Global;
use sv_base::NoMemory;
use sv_rows::push_gap;

/// The events file of a list of events.
pub fn file_of(alloc: Global, list: &str) -> Result<String, NoMemory> {
    let mut events = String::new(alloc);
    for event in list.split(", ") {
        push_event(&mut events, event)?;
    }
    Ok(format!(in alloc; "{{\"version\":1,\"events\":[{}]}}", events.as_str())?)
}

// Appends an event: its type, the element's `id`, and what it carries.
fn push_event(events: &mut String, event: &str) -> Result<(), NoMemory> {
    let Some((name, rest)) = event.split_once(' ') else {
        return Ok(());
    };
    push_gap(events, ",")?;
    let (id, carried) = match rest.split_once(' ') {
        Some((id, carried)) => (id, Some(carried)),
        None => (rest, None),
    };
    write!(events, "{{\"type\":\"{name}\",\"id\":\"{id}\"")?;
    if let Some(carried) = carried {
        push_carried(events, name, carried)?;
    }
    Ok(events.push_str("}")?)
}

fn push_carried(events: &mut String, name: &str, carried: &str) -> Result<(), NoMemory> {
    match name {
        "input" => Ok(write!(events, ",\"value\":\"{carried}\"")?),
        "change" => Ok(write!(events, ",\"checked\":{carried}")?),
        _ => Ok(write!(events, ",\"key\":\"{carried}\"")?),
    }
}
