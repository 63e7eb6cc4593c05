// What one attribute of an element shows.
ghost use Rattle.std.specs.Prelude.{◌≡◌, ◌++◌, option_copied, IfOk, OnOk};
ghost use Rattle.sv_value.specs.View.{view_of};
ghost use Rattle.sv_attributes.specs.Attr as spec;

use crate::values::{joined, written};
use std::alloc::Global;
use sv_base::{Name, NoMemory, Text};
use sv_code::{FragValue, FragValuePart, Program};
use sv_list::Items;
use sv_ops::is_nullish;
use sv_shapes::{AttrState, share_attr};
use sv_tokens::{Attr, Attribute};
use sv_value::{Value, ValueFault, text_of, truthy};

/// The attributes that are there or not; the others show a text (HTML, 'Boolean attributes').
pub const BOOLEAN_NAMES: [&str; 9] = [
    "checked",
    "disabled",
    "hidden",
    "readonly",
    "required",
    "selected",
    "multiple",
    "open",
    "autofocus",
];

/// The text of a name, or the empty one.
pub fn name_text(program: &Program, name: Name) -> &str
    ensures { result.now ≡ spec.name_text program.now name }
{
    let names = &program.names;
    names.text(name).unwrap_or("")
}

/// Whether an attribute is there or not; the others show a text.
pub fn is_boolean(program: &Program, name: Name) -> bool
    ensures { result ≡ spec.is_boolean program.now name }
{
    let names = &program.names;
    names.is_one_of(name, &BOOLEAN_NAMES)
}

// What an attribute with a text shows of a value that has one.
fn text_attr(alloc: Global, value: &Value) -> Result<Option<Attr>, NoMemory>
    ensures { IfOk result (λ attr. attr ≡ spec.text_attr (view_of value.now)) }
{
    match text_of(alloc, value) {
        Ok(text) => Ok(Some(Attr::Text(text))),
        Err(ValueFault::NotText) => Ok(None),
        Err(_) => Err(NoMemory),
    }
}

/// What an attribute shows of a value, if anything.
pub fn attr_of(alloc: Global, boolean: bool, value: &Value) -> Result<Option<Attr>, NoMemory>
    ensures { IfOk result (λ attr. attr ≡ spec.attr_of boolean (view_of value.now)) }
{
    if boolean {
        return Ok(if truthy(value) {
            Some(Attr::Flag)
        } else {
            None
        });
    }
    if is_nullish(value) {
        return Ok(None);
    }
    text_attr(alloc, value)
}

// What an attribute shows without a value.
fn bare_attr(alloc: Global, boolean: bool) -> Result<Attr, NoMemory>
    ensures { IfOk result (λ attr. attr ≡ spec.bare_attr boolean) }
{
    if boolean {
        return Ok(Attr::Flag);
    }
    let text = Text::new(alloc, "")?;
    Ok(Attr::Text(text))
}

// What an attribute shows of texts, which are joined.
fn joined_attr(alloc: Global, boolean: bool, texts: &[Text]) -> Result<Option<Attr>, NoMemory>
    ensures { IfOk result (λ attr. attr ≡ spec.joined_attr boolean texts.now) }
{
    let value = Value::Text(joined(alloc, "", texts)?);
    attr_of(alloc, boolean, &value)
}

// What an attribute shows that is written in full.
fn written_attr(
    alloc: Global,
    boolean: bool,
    parts: &[FragValuePart],
) -> Result<Option<Attr>, NoMemory>
    ensures { IfOk result (λ attr. attr ≡ spec.written_attr boolean parts.now) }
{
    let texts = written(alloc, parts)?;
    joined_attr(alloc, boolean, texts.as_slice())
}

// What a value of these parts shows, by what they came to.
fn parts_attr(
    alloc: Global,
    boolean: bool,
    parts: &[FragValuePart],
    state: Option<&AttrState>,
) -> Result<Option<Attr>, NoMemory>
    ensures { IfOk result (λ attr. attr ≡ spec.parts_attr boolean parts.now (option_copied state.entry)) }
{
    match state {
        Some(AttrState::Written) => written_attr(alloc, boolean, parts),
        Some(AttrState::Texts(texts)) => joined_attr(alloc, boolean, texts.as_slice()),
        Some(AttrState::Shows(attr)) => share_attr(attr.as_ref()),
        Some(AttrState::Holds(_)) => Ok(None),
        None => Ok(None),
    }
}

/// What an attribute shows, by its value and what that came to.
pub fn value_attr(
    alloc: Global,
    boolean: bool,
    value: &FragValue,
    state: Option<&AttrState>,
) -> Result<Option<Attr>, NoMemory>
    ensures { IfOk result (λ attr. attr ≡ spec.value_attr boolean value.now (option_copied state.entry)) }
{
    match value {
        FragValue::Bare => Ok(Some(bare_attr(alloc, boolean)?)),
        FragValue::Parts(parts) => parts_attr(alloc, boolean, parts.as_slice(), state),
    }
}

/// What a binding shows.
pub fn bound_attr(state: Option<&AttrState>) -> Result<Option<Attr>, NoMemory>
    ensures { IfOk result (λ attr. attr ≡ spec.bound_attr (option_copied state.entry)) }
{
    match state {
        Some(AttrState::Shows(attr)) => share_attr(attr.as_ref()),
        _ => Ok(None),
    }
}

/// Adds an attribute with its number in the template, if it shows anything. A number beyond 16 bits counts as `NoMemory`.
pub fn place(
    alloc: Global,
    all: &mut Items<Attribute>,
    number: usize,
    name: &str,
    value: Option<Attr>,
) -> Result<(), NoMemory>
    ensures { OnOk result (all.new ≡ all.old ++ spec.placed number name.now value) }
{
    let Some(value) = value else {
        return Ok(());
    };
    let Ok(slot) = u16::try_from(number) else {
        drop(value);
        return Err(NoMemory);
    };
    let name = Text::new(alloc, name)?;
    all.push(Attribute { slot, name, value })
}
