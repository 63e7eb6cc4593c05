// The form of a step, and that of a file of steps.
ghost use Rattle.std.specs.Prelude.{◌≡◌, option_map, IfOk};
ghost use Rattle.serde_json.specs.View.{view, items_view, members_view};
ghost use Rattle.sv_events.specs.Members.{keys_pass};
ghost use Rattle.sv_steps.specs.Form as spec;
ghost use Rattle.sv_steps.specs.Wish.{want_in};

use crate::step::{Expectation, Step, Want};
use serde_json::{Map, Value};
use std::alloc::Global;
use sv_base::{NoMemory, Text};
use sv_events::{Version, event_of, filled_text, place_of, text_of};

// The kinds of what is wanted.
#[derive(Clone, Copy)]
enum Kind {
    Count,
    Text,
    Attribute,
}

// What is wanted, with the texts of the file.
#[derive(Clone, Copy)]
enum Wish<'a> {
    Count(u32),
    Text(&'a str),
    Attribute {
        name: &'a str,
        shows: Option<&'a str>,
    },
}

fn is_kind_key(kind: Kind, key: &str) -> bool
    ensures { result ≡ spec.is_kind_key kind key.now }
{
    match kind {
        Kind::Count => key == "count",
        Kind::Text => key == "text",
        Kind::Attribute => key == "attr" || key == "is",
    }
}

fn is_key(kind: Kind, key: &str) -> bool
    ensures { result ≡ spec.is_key kind key.now }
{
    key == "expect" || is_kind_key(kind, key)
}

// Whether an object has only keys of an expectation of this kind.
fn has_kind_keys(kind: Kind, members: &Map<String, Value>) -> bool
    ensures { result ≡ keys_pass (spec.is_key kind) (members_view members.now.entries) }
{
    members.keys().all(|key| is_key(kind, key.as_str()))
}

// The kind of an expectation, by the keys that it has.
fn kind_of(value: &Value) -> Kind
    ensures { result ≡ spec.kind_of (view value.now) }
{
    if value.get("count").is_some() {
        Kind::Count
    } else if value.get("text").is_some() {
        Kind::Text
    } else {
        Kind::Attribute
    }
}

// A text, or none where it is null.
fn text_or_null(value: &Value) -> Option<Option<&str>>
    ensures { option_map (option_map (λ t. t.now)) result ≡ spec.text_or_null (view value.now) }
{
    if value.is_null() {
        Some(None)
    } else {
        Some(Some(value.as_str()?))
    }
}

fn count_in(value: &Value) -> Option<Wish<'_>>
    ensures { option_map want_in result ≡ spec.count_in (view value.now) }
{
    Some(Wish::Count(place_of(value.get("count")?)?))
}

fn text_in(value: &Value) -> Option<Wish<'_>>
    ensures { option_map want_in result ≡ spec.text_in (view value.now) }
{
    Some(Wish::Text(value.get("text")?.as_str()?))
}

fn attribute_in(value: &Value) -> Option<Wish<'_>>
    ensures { option_map want_in result ≡ spec.attribute_in (view value.now) }
{
    let name = filled_text(value.get("attr")?)?;
    let shows = text_or_null(value.get("is")?)?;
    Some(Wish::Attribute { name, shows })
}

// What is wanted by the keys of a kind.
fn wish_in(kind: Kind, value: &Value) -> Option<Wish<'_>>
    ensures { option_map want_in result ≡ spec.want_by kind (view value.now) }
{
    match kind {
        Kind::Count => count_in(value),
        Kind::Text => text_in(value),
        Kind::Attribute => attribute_in(value),
    }
}

// What is wanted, where no other key is there.
fn wish_of(value: &Value) -> Option<Wish<'_>>
    ensures { option_map want_in result ≡ spec.want_of (view value.now) }
{
    let kind = kind_of(value);
    let members = value.as_object()?;
    if has_kind_keys(kind, members) {
        wish_in(kind, value)
    } else {
        None
    }
}

// The expectation of a wish with texts of its own.
fn expectation(alloc: Global, selector: &str, wish: Wish<'_>) -> Result<Expectation, NoMemory>
    ensures { IfOk result (λ e. e ≡ spec.expecting selector.now (want_in wish.entry)) }
{
    let selector = Text::new(alloc, selector)?;
    let want = match wish {
        Wish::Count(count) => Want::Count(count),
        Wish::Text(text) => Want::Text(Text::new(alloc, text)?),
        Wish::Attribute { name, shows } => Want::Attribute {
            name: Text::new(alloc, name)?,
            shows: text_of(alloc, shows)?,
        },
    };
    Ok(Expectation { selector, want })
}

// The selector of an expectation.
fn selector_in(value: &Value) -> Option<&str>
    ensures { option_map (λ t. t.now) result ≡ spec.selector_in (view value.now) }
{
    value.get("expect")?.as_str()
}

// The expectation that a value is.
fn expectation_of(alloc: Global, value: &Value) -> Result<Option<Expectation>, NoMemory>
    ensures { IfOk result (λ e. e ≡ spec.expectation_of (view value.now)) }
{
    let Some(selector) = selector_in(value) else {
        return Ok(None);
    };
    let Some(wish) = wish_of(value) else {
        return Ok(None);
    };
    Ok(Some(expectation(alloc, selector, wish)?))
}

// The step that a value is.
pub(crate) fn step_of(alloc: Global, value: &Value) -> Result<Option<Step>, NoMemory>
    ensures { IfOk result (λ step. step ≡ spec.step_of (view value.now)) }
{
    match event_of(alloc, Version::Second, value)? {
        Some(event) => Ok(Some(Step::Event(event))),
        None => match expectation_of(alloc, value)? {
            Some(expectation) => Ok(Some(Step::Expect(expectation))),
            None => Ok(None),
        },
    }
}

fn is_file_key(key: &str) -> bool
    ensures { result ≡ spec.is_file_key key.now }
{
    key == "version" || key == "steps"
}

// Whether an object has only keys of a file.
fn has_file_keys(members: &Map<String, Value>) -> bool
    ensures { result ≡ keys_pass spec.is_file_key (members_view members.now.entries) }
{
    members.keys().all(|key| is_file_key(key.as_str()))
}

// Whether the version of a file is that of steps.
fn is_version(value: &Value) -> Option<bool>
    ensures { result ≡ spec.is_version (view value.now) }
{
    Some(value.get("version")?.as_u64()? == 3)
}

// What stands in the list of a file of steps.
pub(crate) fn items_in(value: &Value) -> Option<&Vec<Value>>
    ensures { option_map (λ items. items_view items.now.items) result ≡ spec.items_in (view value.now) }
{
    let items = value.get("steps")?.as_array()?;
    let members = value.as_object()?;
    if is_version(value)? && has_file_keys(members) {
        Some(items)
    } else {
        None
    }
}
