// The form of an event, and that of a file of events.
ghost use Rattle.std.specs.Prelude.{◌≡◌, Some, option_map, IfOk};
ghost use Rattle.serde_json.specs.View.{view, items_view, members_view};
ghost use Rattle.sv_events.specs.Form as spec;
ghost use Rattle.sv_events.specs.Members.{keys_pass};
ghost use Rattle.sv_events.specs.Shape.{event_in};
ghost use Rattle.sv_events.specs.Target.{target_of};
ghost use Rattle.sv_events.specs.declared.event.Target.{Target};

use crate::event::{Event, Target};
use crate::members::{filled, flag_at, text_at};
use crate::target;
use serde_json::{Map, Value};
use std::alloc::Global;
use sv_base::{NoMemory, Text};

/// The version of a file.
#[derive(Clone, Copy, Debug, PartialEq, Eq)]
pub enum Version {
    /// Events name their elements by `id` alone.
    First,
    /// Events name them by `id` or by `path`.
    Second,
}

// An event whose texts are still those of the file, but for its target.
#[derive(Clone, Copy)]
struct Shape<'a> {
    name: &'a str,
    value: Option<&'a str>,
    checked: Option<bool>,
    key: Option<&'a str>,
}

fn is_shared_key(key: &str) -> bool
    ensures { result ≡ spec.is_shared_key key.now }
{
    key == "type" || key == "id" || key == "key"
}

fn is_new_key(version: Version, key: &str) -> bool
    ensures { result ≡ spec.is_new_key version key.now }
{
    match version {
        Version::First => false,
        Version::Second => key == "path",
    }
}

fn is_own_key(name: &str, key: &str) -> bool
    ensures { result ≡ spec.is_own_key name.now key.now }
{
    name == "input" && key == "value" || name == "change" && key == "checked"
}

fn may_have(version: Version, name: &str, key: &str) -> bool
    ensures { result ≡ spec.may_have version name.now key.now }
{
    is_shared_key(key) || is_new_key(version, key) || is_own_key(name, key)
}

// Whether an object has only keys that an event of this type may have.
fn has_event_keys(version: Version, members: &Map<String, Value>, name: &str) -> bool
    ensures { result ≡ keys_pass (spec.may_have version name.now) (members_view members.now.entries) }
{
    members
        .keys()
        .all(|key| may_have(version, name, key.as_str()))
}

// The parts of an event, but for its target.
fn shape_of(value: &Value) -> Option<Shape<'_>>
    ensures { (target : Target) → option_map (event_in target) result ≡ spec.parts_of (Some target) (view value.now) }
{
    Some(Shape {
        name: filled(value, "type")?,
        value: text_at(value, "value")?,
        checked: flag_at(value, "checked")?,
        key: text_at(value, "key")?,
    })
}

// The parts of an event, with texts of its own.
fn parts_of(alloc: Global, value: &Value) -> Result<Option<Event>, NoMemory>
    ensures { IfOk result (λ event. event ≡ spec.parts_of (target_of (view value.now)) (view value.now)) }
{
    let Some(target) = target::target_of(alloc, value)? else {
        return Ok(None);
    };
    let Some(shape) = shape_of(value) else {
        drop(target);
        return Ok(None);
    };
    Ok(Some(shape.event(alloc, target)?))
}

// Whether a value has only keys that an event may have.
fn has_keys(version: Version, value: &Value, event: &Event) -> bool
    ensures { result ≡ spec.has_keys version (view value.now) event.now }
{
    match value.as_object() {
        Some(members) => has_event_keys(version, members, event.name.as_str()),
        None => false,
    }
}

/// The event that a value is; `None` exactly where it has not the form of one.
pub fn event_of(alloc: Global, version: Version, value: &Value) -> Result<Option<Event>, NoMemory>
    ensures { IfOk result (λ event. event ≡ spec.event_of version (view value.now)) }
{
    let Some(event) = parts_of(alloc, value)? else {
        return Ok(None);
    };
    if has_keys(version, value, &event) {
        Ok(Some(event))
    } else {
        drop(event);
        Ok(None)
    }
}

impl Shape<'_> {
    // The event with a target, and with texts of its own.
    fn event(&self, alloc: Global, target: Target) -> Result<Event, NoMemory>
        ensures { IfOk result (λ event. event ≡ event_in target self.now) }
    {
        Ok(Event {
            name: Text::new(alloc, self.name)?,
            target,
            value: text_of(alloc, self.value)?,
            checked: self.checked,
            key: text_of(alloc, self.key)?,
        })
    }
}

/// A text of its own, where there is one.
pub fn text_of(alloc: Global, text: Option<&str>) -> Result<Option<Text>, NoMemory>
    ensures { IfOk result (λ t. t ≡ option_map (λ s. s.now) text.entry) }
{
    match text {
        None => Ok(None),
        Some(text) => Ok(Some(Text::new(alloc, text)?)),
    }
}

// The version of a file.
pub(crate) fn version_of(value: &Value) -> Option<Version>
    ensures { result ≡ spec.version_of (view value.now) }
{
    match value.get("version")?.as_u64()? {
        1 => Some(Version::First),
        2 => Some(Version::Second),
        _ => None,
    }
}

// What stands in the list of a file.
pub(crate) fn items_in(value: &Value) -> Option<&Vec<Value>>
    ensures { option_map (λ items. items_view items.now.items) result ≡ spec.items_in (view value.now) }
{
    let items = value.get("events")?.as_array()?;
    let members = value.as_object()?;
    if has_file_keys(members) {
        Some(items)
    } else {
        None
    }
}

fn is_file_key(key: &str) -> bool
    ensures { result ≡ spec.is_file_key key.now }
{
    key == "version" || key == "events"
}

// Whether an object has only keys of a file.
fn has_file_keys(members: &Map<String, Value>) -> bool
    ensures { result ≡ keys_pass spec.is_file_key (members_view members.now.entries) }
{
    members.keys().all(|key| is_file_key(key.as_str()))
}
