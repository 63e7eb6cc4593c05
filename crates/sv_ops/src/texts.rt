// Texts, and the calls on them.
ghost use Rattle.std.specs.Prelude.{◌≡◌, ◌+◌, ◌++◌, ◌≤◌, ◌<◌, ◌^◌, min, length, map, option_map, string_bytes, IfOk};
ghost use Rattle.sv_base.specs.declared.limits.TheConstants.{VALUE_SIZE_LIMIT as MOST};
ghost use Rattle.sv_value.specs.Value.{text};
ghost use Rattle.sv_value.specs.View.{view_of};
ghost use Rattle.sv_value.specs.Words.{text_of};
ghost use Rattle.sv_ops.specs.Texts as spec;
ghost use Rattle.sv_ops.specs.Answer.{spelled};
ghost use Rattle.sv_ops.specs.Answers.{Answers, HasText, Splits};

use crate::faults::{FaultKind, OpError};
use crate::given::Given;
use crate::make::{list_costing, spell};
use std::alloc::Global;
use sv_base::{NoMemory, Text, VALUE_SIZE_LIMIT};
use sv_value::{Value, ValueFault};

/// The text of a value; `NotText` exactly where it has none.
pub fn text_or_fault(alloc: Global, value: &Value) -> Result<Text, OpError>
    ensures { HasText (λ t. t) result (text_of (view_of value.now)) }
{
    match sv_value::text_of(alloc, value) {
        Ok(text) => Ok(text),
        Err(ValueFault::NotText) => Err(OpError::Fault(FaultKind::NotText)),
        Err(_) => Err(OpError::NoMemory),
    }
}

/// The UTF-16 code units of a text.
pub(crate) fn units(text: &[u8]) -> usize
    ensures { result ≡ spec.units text.now }
{
    let mut units = 0usize;
    for byte in text {
        units += units_at(*byte);
    }
    units
}

// The UTF-16 code units that begin at a byte.
fn units_at(byte: u8) -> usize
    ensures value { result ≡ spec.units_at byte }
    ensures few { result ≤ 2 }
{
    match byte {
        0x00..=0x7F | 0xC0..=0xEF => 1,
        0x80..=0xBF => 0,
        0xF0..=0xFF => 2,
    }
}

/// `includes`: whether another text stands anywhere in a text, which is walked for it; `NotText` exactly where the argument isn't a text.
pub fn contains(text: &str, value: &Value) -> Result<Given, OpError>
    ensures { Answers result (spec.includes text.now (view_of value.now)) }
{
    let Value::Text(part) = value else {
        return Err(OpError::Fault(FaultKind::NotText));
    };
    Ok(Given {
        value: Value::Bool(text.contains(part.as_str())),
        cost: text.len(),
    })
}

/// `startsWith`: whether a text begins with another, for which it is walked; `NotText` exactly where the argument isn't a text.
pub fn starts(text: &str, value: &Value) -> Result<Given, OpError>
    ensures { Answers result (spec.starts text.now (view_of value.now)) }
{
    let Value::Text(front) = value else {
        return Err(OpError::Fault(FaultKind::NotText));
    };
    Ok(Given {
        value: Value::Bool(text.starts_with(front.as_str())),
        cost: text.len(),
    })
}

/// `endsWith`: whether a text ends with another, for which it is walked; `NotText` exactly where the argument isn't a text.
pub fn ends(text: &str, value: &Value) -> Result<Given, OpError>
    ensures { Answers result (spec.ends text.now (view_of value.now)) }
{
    let Value::Text(end) = value else {
        return Err(OpError::Fault(FaultKind::NotText));
    };
    Ok(Given {
        value: Value::Bool(text.ends_with(end.as_str())),
        cost: text.len(),
    })
}

/// `split`: the pieces of a text between the places of another, as a list. It costs the text's bytes, each piece's, and the items. `NotText`
/// where the argument isn't a text, `Range` where it is empty, and else `Deep` or `Large` where there can't be such a list.
pub fn pieces(alloc: Global, text: &str, value: &Value) -> Result<Given, OpError>
    ensures { Answers result (spec.split text.now (view_of value.now)) }
{
    let Value::Text(between) = value else {
        return Err(OpError::Fault(FaultKind::NotText));
    };
    let between = between.as_str();
    if between.is_empty() {
        return Err(OpError::Fault(FaultKind::Range));
    }
    let (pieces, bytes) = split(alloc, text, between)?;
    let cost = text.len() + bytes + pieces.len();
    list_costing(alloc, pieces, cost)
}

// The pieces of a text between the places of one that isn't empty, and how many bytes they have.
fn split(alloc: Global, text: &str, between: &str) -> Result<(Vec<Value>, usize), OpError>
    requires { 0 < length between.now }
    ensures pieces { Splits (λ pieces. pieces.items) result between.now text.now }
    ensures few { IfOk result (λ p. p.1 + length p.0.items ≤ length text.now + 1) }
{
    let mut pieces = Vec::new(alloc);
    let mut bytes = 0usize;
    let mut rest = text;
    while let Some((piece, behind)) = rest.split_once(between) {
        bytes += piece.len();
        pieces.push(piece_of(alloc, piece)?)?;
        rest = behind;
    }
    bytes += rest.len();
    pieces.push(piece_of(alloc, rest)?)?;
    Ok((pieces, bytes))
}

fn piece_of(alloc: Global, piece: &str) -> Result<Value, NoMemory>
    ensures { IfOk result (λ value. view_of value ≡ text piece.now) }
{
    Ok(Value::Text(Text::new(alloc, piece)?))
}

/// A line of the log: the texts of some values with a space between; `NotText` exactly where one has none.
pub fn line(alloc: Global, values: &[Value]) -> Result<Text, OpError>
    ensures { HasText (λ t. t) result (option_map spec.line_of (spec.texts_of (map view_of values.now))) }
{
    let texts = texts_of(alloc, values)?;
    let whole = whole_of(alloc, " ", &texts)?;
    Ok(Text::new(alloc, whole.as_str())?)
}

// The texts of some values; `NotText` exactly where one has none.
fn texts_of(alloc: Global, values: &[Value]) -> Result<Vec<Text>, OpError>
    ensures { HasText (λ texts. texts.items) result (spec.texts_of (map view_of values.now)) }
{
    let mut texts = Vec::new(alloc);
    for value in values {
        texts.push(text_or_fault(alloc, value)?)?;
    }
    Ok(texts)
}

/// Texts with another between them, as a value, which costs its bytes; `Large` exactly where it would be too large.
pub fn joined(alloc: Global, between: &str, texts: &[Text]) -> Result<Given, OpError>
    ensures { Answers result (spelled 0 (spec.between between.now texts.now)) }
{
    if size_of(between, texts) >= VALUE_SIZE_LIMIT as usize {
        return Err(OpError::Fault(FaultKind::Large));
    }
    let whole = whole_of(alloc, between, texts)?;
    spell(alloc, 0, whole.as_str())
}

/// Two texts behind one another, as a value, which costs its bytes; `Large` exactly where it would be too large.
pub(crate) fn joined_two(alloc: Global, a: &str, b: &str) -> Result<Given, OpError>
    ensures { Answers result (spelled 0 (a.now ++ b.now)) }
{
    if a.len().saturating_add(b.len()) >= VALUE_SIZE_LIMIT as usize {
        return Err(OpError::Fault(FaultKind::Large));
    }
    let mut whole = String::from_str(alloc, a)?;
    whole.push_str(b)?;
    spell(alloc, 0, whole.as_str())
}

// How many bytes texts have with another between them, counted up to the limit of a value.
fn size_of(between: &str, texts: &[Text]) -> usize
    ensures { result ≡ min MOST (length (spec.between between.now texts.now)) }
{
    let mut size = 0usize;
    for (n, text) in texts.iter().enumerate() {
        let gap = if n > 0 { between.len() } else { 0 };
        size = size
            .saturating_add(gap)
            .saturating_add(text.as_str().len())
            .min(VALUE_SIZE_LIMIT as usize);
    }
    size
}

// Texts with another between them.
fn whole_of(alloc: Global, between: &str, texts: &[Text]) -> Result<String, NoMemory>
    ensures { IfOk result (λ whole. string_bytes whole ≡ spec.between between.now texts.now) }
{
    let mut whole = String::new(alloc);
    for (n, text) in texts.iter().enumerate() {
        if n > 0 {
            whole.push_str(between)?;
        }
        whole.push_str(text.as_str())?;
    }
    Ok(whole)
}
