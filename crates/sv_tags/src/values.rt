// The values of attributes.
ghost use Rattle.std.specs.Prelude.{◌≡◌, ◌≤◌, [], ◌∷◌, length, IfOk};
ghost use Rattle.sv_expr.specs.Limits.{real};
ghost use Rattle.sv_lex.specs.Reader.{Reads};
ghost use Rattle.sv_tags.specs.Values as spec;

use crate::holes::{Filling, Hole, braces};
use crate::texts::{Quote, Setting, closing, text};
use std::alloc::Global;
use sv_ast::{AttrPart, AttrParts, AttrValue, Kind, ParseError};
use sv_base::{NoMemory, Text};
use sv_lex::{Source, byte};
use sv_list::Items;

/// Whether the value is text alone.
pub(crate) fn is_literal(value: &AttrValue) -> bool
    ensures { result ≡ spec.is_literal value.now }
{
    match value {
        AttrValue::Bare => false,
        AttrValue::Parts(parts) => match parts.as_slice() {
            [] => true,
            [AttrPart::Text(_)] => true,
            _ => false,
        },
    }
}

/// The text that a value is, or `None` where it has none or an expression.
pub(crate) fn literal(alloc: Global, value: &AttrValue) -> Result<Option<Text>, NoMemory>
    ensures { IfOk result (λ text. text ≡ spec.literal value.now) }
{
    match value {
        AttrValue::Bare => Ok(None),
        AttrValue::Parts(parts) => match parts.as_slice() {
            [] => Ok(Some(Text::new(alloc, "")?)),
            [AttrPart::Text(text)] => Ok(Some(text.share()?)),
            _ => Ok(None),
        },
    }
}

/// A value of one part.
pub(crate) fn alone(alloc: Global, part: AttrPart) -> Result<AttrValue, NoMemory>
    ensures { IfOk result (λ value. value ≡ AttrValue.Parts (part ∷ [])) }
{
    let mut parts = Items::new(alloc);
    parts.push(part)?;
    Ok(AttrValue::Parts(parts))
}

fn shown(hole: Hole) -> AttrPart
    ensures { result ≡ spec.shown hole }
{
    let Hole { span, value } = hole;
    AttrPart::Show { span, value }
}

// Braces with something in them, as the one part of a value.
#[tactic(auto, unfolding(crate::specs::Values::in_braces))]
fn in_braces(
    alloc: Global,
    source: &mut Source<'_>,
    filling: Filling,
    room: usize,
) -> Result<AttrValue, ParseError>
    requires { 1 ≤ length source.old.text }
    ensures { Reads (spec.in_braces real room filling source.old) result source.new }
{
    let found = braces(alloc, source, filling, room)?;
    Ok(alone(alloc, shown(found))?)
}

#[tactic(auto, unfolding(crate::specs::Values::unquoted))]
fn unquoted(alloc: Global, source: &mut Source<'_>) -> Result<AttrValue, ParseError>
    ensures { Reads (spec.unquoted source.old) result source.new }
{
    let found = text(alloc, source, Setting::Unquoted)?;
    Ok(alone(alloc, AttrPart::Text(found))?)
}

// A part in quotes: an expression in braces, or text as far as it goes.
#[tactic(auto, unfolding(crate::specs::Values::part))]
fn part(
    alloc: Global,
    source: &mut Source<'_>,
    quote: Quote,
    room: usize,
) -> Result<AttrPart, ParseError>
    ensures { Reads (spec.part real room quote source.old) result source.new }
{
    if byte(source.text(), 0) == b'{' {
        Ok(shown(braces(alloc, source, Filling::Value, room)?))
    } else {
        Ok(AttrPart::Text(text(alloc, source, Setting::Quoted(quote))?))
    }
}

// The parts up to the closing quote.
fn parts(
    alloc: Global,
    source: &mut Source<'_>,
    quote: Quote,
    room: usize,
) -> Result<AttrParts, ParseError>
    ensures { Reads (spec.parts real room quote source.old) result source.new }
{
    let mut found = Items::new(alloc);
    for _turn in 0..source.left() {
        if byte(source.text(), 0) == closing(quote) {
            source.pass(1);
            return Ok(found);
        }
        found.push(part(alloc, source, quote, room)?)?;
    }
    Err(source.stop(Kind::Syntax))
}

#[tactic(auto, unfolding(crate::specs::Values::in_quotes))]
fn in_quotes(
    alloc: Global,
    source: &mut Source<'_>,
    quote: Quote,
    room: usize,
) -> Result<AttrValue, ParseError>
    requires { 1 ≤ length source.old.text }
    ensures { Reads (spec.in_quotes real room quote source.old) result source.new }
{
    source.pass(1);
    Ok(AttrValue::Parts(parts(alloc, source, quote, room)?))
}

// What stands behind the `=` of an attribute.
#[tactic(auto, unfolding(crate::specs::Values::assigned))]
fn assigned(alloc: Global, source: &mut Source<'_>, room: usize) -> Result<AttrValue, ParseError>
    ensures { Reads (spec.assigned real room source.old) result source.new }
{
    match byte(source.text(), 0) {
        b'{' => in_braces(alloc, source, Filling::Value, room),
        b'"' => in_quotes(alloc, source, Quote::Double, room),
        b'\'' => in_quotes(alloc, source, Quote::Single, room),
        _ => unquoted(alloc, source),
    }
}

/// What stands behind the name of an attribute: nothing, or `=` and a value in braces, in quotes, or without either.
#[tactic(auto, unfolding(crate::specs::Values::value))]
pub(crate) fn value(
    alloc: Global,
    source: &mut Source<'_>,
    room: usize,
) -> Result<AttrValue, ParseError>
    ensures { Reads (spec.value real room source.old) result source.new }
{
    if byte(source.text(), 0) != b'=' {
        return Ok(AttrValue::Bare);
    }
    source.pass(1);
    assigned(alloc, source, room)
}

// The only form behind the `=` of a directive.
#[tactic(auto, unfolding(crate::specs::Values::only_braces))]
fn only_braces(
    alloc: Global,
    source: &mut Source<'_>,
    filling: Filling,
    room: usize,
) -> Result<AttrValue, ParseError>
    ensures { Reads (spec.only_braces real room filling source.old) result source.new }
{
    if byte(source.text(), 0) != b'{' {
        return Err(source.stop(Kind::Syntax));
    }
    in_braces(alloc, source, filling, room)
}

/// What stands behind the name of a directive: nothing, or `=` and braces with `filling` in them.
#[tactic(auto, unfolding(crate::specs::Values::directive_value))]
pub(crate) fn directive_value(
    alloc: Global,
    source: &mut Source<'_>,
    filling: Filling,
    room: usize,
) -> Result<AttrValue, ParseError>
    ensures { Reads (spec.directive_value real room filling source.old) result source.new }
{
    if byte(source.text(), 0) != b'=' {
        return Ok(AttrValue::Bare);
    }
    source.pass(1);
    only_braces(alloc, source, filling, room)
}
