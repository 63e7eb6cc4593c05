// The openings of tags. The texts stand at the byte 100 of the file 3, and the tag begins at the byte 90.
ghost use Rattle.std.specs.Prelude.{◌<◌, ◌≤◌, length};

use crate::LONGEST;
use crate::refusals::refused;
use std::alloc::Global;
use sv_ast::{AttrKind, AttrPart, AttrValue, Modifiers, ParseError, TagAttr};
use sv_base::{Names, NoMemory, Text};
use sv_lex::Source;
use sv_rows::push_part;
use sv_tags::{Opening, Tag, opening_tag};

/// What is read behind the name of a tag: `owned ` where a component encloses the tag, what the tag is of, and the text.
pub fn opening(alloc: Global, row: &str) -> Result<String, NoMemory>
    requires { length row.now < LONGEST }
{
    let (is_owned, text) = owner_and_text(row);
    let (tag, text) = tag_and_text(text);
    let known = Names::empty(alloc);
    let mut source = Source::new(alloc, &known, 3, text.as_bytes(), 100);
    let read = opening_tag(alloc, &mut source, tag, is_owned, 1, 90);
    let is_done = source.text().is_empty();
    told(alloc, read, &source.into_added(), is_done)
}

// Whether a component encloses the tag, and the text behind the word that says so.
fn owner_and_text(row: &str) -> (bool, &str)
    ensures { length result.1.now ≤ length row.now }
{
    match row.strip_prefix("owned ") {
        Some(text) => (true, text),
        None => (false, row),
    }
}

// What a tag is of, and the text behind its name.
fn tag_and_text(text: &str) -> (Tag, &str)
    ensures { length result.1.now ≤ length text.now }
{
    if let Some(text) = text.strip_prefix("Element") {
        return (Tag::Element, text);
    }
    if let Some(text) = text.strip_prefix("Component") {
        return (Tag::Component, text);
    }
    if let Some(text) = text.strip_prefix("Input") {
        return (Tag::Input, text);
    }
    match text.strip_prefix("Slot") {
        Some(text) => (Tag::Slot, text),
        None => (Tag::Slot, text),
    }
}

fn told(
    alloc: Global,
    read: Result<Opening, ParseError>,
    names: &Names,
    is_done: bool,
) -> Result<String, NoMemory> {
    match read {
        Ok(opening) => shown(alloc, &opening, names, is_done),
        Err(error) => refused(alloc, error),
    }
}

// The attributes of an opening, the name of its slot and its end, and whether there is more.
fn shown(
    alloc: Global,
    opening: &Opening,
    names: &Names,
    is_done: bool,
) -> Result<String, NoMemory> {
    let mut line = String::new(alloc);
    push_attrs(alloc, &mut line, names, opening.attrs.as_slice())?;
    push_slot(&mut line, &opening.slot)?;
    push_part(&mut line, " ", if opening.is_closed { "/>" } else { ">" })?;
    line.push_str(if is_done { "" } else { " and more" })?;
    Ok(line)
}

fn push_attrs(
    alloc: Global,
    line: &mut String,
    names: &Names,
    attrs: &[TagAttr],
) -> Result<(), NoMemory> {
    for attr in attrs {
        push_part(line, " ", attribute(alloc, names, attr)?.as_str())?;
    }
    Ok(())
}

fn push_slot(line: &mut String, slot: &Option<Text>) -> Result<(), NoMemory> {
    let Some(name) = slot else {
        return Ok(());
    };
    push_part(line, " ", "slot ")?;
    Ok(line.push_str(name.as_str())?)
}

// An attribute as its kind, its name, its modifiers and its value.
fn attribute(alloc: Global, names: &Names, attr: &TagAttr) -> Result<String, NoMemory> {
    let mut line = String::from_str(alloc, kind(attr.kind))?;
    line.push_str(names.text(attr.name).unwrap_or("?"))?;
    push_modifiers(&mut line, attr.modifiers)?;
    push_value(&mut line, &attr.value)?;
    Ok(line)
}

fn kind(of: AttrKind) -> &'static str {
    match of {
        AttrKind::Plain => "",
        AttrKind::On => "on:",
        AttrKind::Bind => "bind:",
        AttrKind::Class => "class:",
        AttrKind::Let => "let:",
        AttrKind::Slot => "in:",
    }
}

fn push_modifiers(line: &mut String, of: Modifiers) -> Result<(), NoMemory> {
    line.push_str(if of.only_self { "|self" } else { "" })?;
    line.push_str(if of.stop { "|stop" } else { "" })?;
    Ok(line.push_str(if of.prevent { "|prevent" } else { "" })?)
}

fn push_value(line: &mut String, value: &AttrValue) -> Result<(), NoMemory> {
    let AttrValue::Parts(parts) = value else {
        return Ok(());
    };
    line.push_str("=")?;
    for part in parts.as_slice() {
        push_value_part(line, part)?;
    }
    Ok(())
}

// Appends a text in quotes, or braces for an expression.
fn push_value_part(line: &mut String, part: &AttrPart) -> Result<(), NoMemory> {
    match part {
        AttrPart::Text(text) => Ok(write!(line, "'{}'", text.as_str())?),
        AttrPart::Show { .. } => Ok(line.push_str("{}")?),
    }
}
