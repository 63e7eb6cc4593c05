// How an event names its element.
ghost use Rattle.std.specs.Prelude.{◌≡◌, None, Some, map, IfOk};
ghost use Rattle.serde_json.specs.View.{view};
ghost use Rattle.sv_events.specs.Target as spec;

use crate::event::{PATH_LIMIT, Path, Target};
use crate::members::filled_text;
use serde_json::Value;
use std::alloc::Global;
use sv_base::{NoMemory, Text};

/// The place that a value is: a whole number below 2 ^ 32.
pub fn place_of(value: &Value) -> Option<u32>
    ensures { result ≡ spec.place_of (view value.now) }
{
    let number = value.as_u64()?;
    if number <= 4294967295 {
        Some(number as u32)
    } else {
        None
    }
}

// The places that values are, where all are.
fn places(alloc: Global, values: &[Value]) -> Result<Option<Path>, NoMemory>
    ensures { IfOk result (λ path. path ≡ spec.places (map view values.now)) }
{
    let mut path = Path::new(alloc);
    for value in values {
        let Some(place) = place_of(value) else {
            return Ok(None);
        };
        path.push(place)?;
    }
    Ok(Some(path))
}

// The path of values that are its places.
fn path_in(alloc: Global, values: &[Value]) -> Result<Option<Path>, NoMemory>
    ensures { IfOk result (λ path. path ≡ spec.path_in (map view values.now)) }
{
    if values.is_empty() || values.len() > PATH_LIMIT {
        return Ok(None);
    }
    places(alloc, values)
}

// The path that a value is.
fn path_of(alloc: Global, value: &Value) -> Result<Option<Path>, NoMemory>
    ensures { IfOk result (λ path. path ≡ spec.path_of (view value.now)) }
{
    let Some(values) = value.as_array() else {
        return Ok(None);
    };
    path_in(alloc, values)
}

fn by_id(alloc: Global, value: &Value) -> Result<Option<Target>, NoMemory>
    ensures { IfOk result (λ target. target ≡ spec.target_by (Some (view value.now)) None) }
{
    match filled_text(value) {
        None => Ok(None),
        Some(id) => Ok(Some(Target::Id(Text::new(alloc, id)?))),
    }
}

fn by_path(alloc: Global, value: &Value) -> Result<Option<Target>, NoMemory>
    ensures { IfOk result (λ target. target ≡ spec.target_by None (Some (view value.now))) }
{
    match path_of(alloc, value)? {
        None => Ok(None),
        Some(path) => Ok(Some(Target::Path(path))),
    }
}

// What an event names, by its `id` or its `path`; `None` exactly where it has both, none, or a wrong one.
pub(crate) fn target_of(alloc: Global, value: &Value) -> Result<Option<Target>, NoMemory>
    ensures { IfOk result (λ target. target ≡ spec.target_of (view value.now)) }
{
    match (value.get("id"), value.get("path")) {
        (Some(id), None) => by_id(alloc, id),
        (None, Some(path)) => by_path(alloc, path),
        (None, None) | (Some(_), Some(_)) => Ok(None),
    }
}
