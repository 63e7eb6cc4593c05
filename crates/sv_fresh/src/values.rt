// What the expressions of markup give now.
ghost use Rattle.std.specs.Prelude.{◌≡◌, None, IfOk};
ghost use Rattle.sv_value.specs.View.{view_of};
ghost use Rattle.sv_value.specs.Words.{text_of as text_found};
ghost use Rattle.sv_fresh.specs.Values as spec;

use crate::scene::Here;
use std::alloc::Global;
use sv_attributes::{alone, joined};
use sv_base::{NoMemory, Text};
use sv_code::{FragValuePart, Part};
use sv_eval::eval_part;
use sv_list::Items;
use sv_meaning::EvalError;
use sv_shapes::{Held, Texts};
use sv_value::{Value, ValueFault, text_of, truthy};

/// The value of an expression, or none where it faults.
#[tactic(auto, unfolding(crate::specs::Values::value_at))]
pub fn value_at(here: &Here<'_>, part: &Part) -> Result<Option<Held>, NoMemory>
    ensures { IfOk result (λ value. value ≡ spec.value_at here.now.scene.now.program.now here.now.view.now part.now) }
{
    match eval_part(here.scene.alloc, here.scene.program, here.view, part) {
        Ok(value) => Ok(Some(Held::new(value))),
        Err(EvalError::Fault(_)) => Ok(None),
        Err(EvalError::NoMemory) => Err(NoMemory),
    }
}

// The text of a value, if it has one.
fn spell(alloc: Global, value: &Value) -> Result<Option<Text>, NoMemory>
    ensures { IfOk result (λ text. text ≡ text_found (view_of value.now)) }
{
    match text_of(alloc, value) {
        Ok(text) => Ok(Some(text)),
        Err(ValueFault::NotText) => Ok(None),
        Err(_) => Err(NoMemory),
    }
}

/// The text of an expression, if it has one.
pub fn text_at(here: &Here<'_>, part: &Part) -> Result<Option<Text>, NoMemory>
    ensures { IfOk result (λ text. text ≡ spec.text_at here.now.scene.now.program.now here.now.view.now part.now) }
{
    match value_at(here, part)? {
        Some(value) => spell(here.scene.alloc, value.get()),
        None => Ok(None),
    }
}

/// Whether an expression is taken as true.
pub fn holds_at(here: &Here<'_>, part: &Part) -> Result<bool, NoMemory>
    ensures { IfOk result (λ holds. holds ≡ spec.holds_at here.now.scene.now.program.now here.now.view.now part.now) }
{
    match value_at(here, part)? {
        Some(value) => Ok(truthy(value.get())),
        None => Ok(false),
    }
}

// The text of a part of an attribute's value.
fn piece_text(here: &Here<'_>, piece: &FragValuePart) -> Result<Option<Text>, NoMemory>
    ensures { IfOk result (λ text. text ≡ spec.piece_text here.now.scene.now.program.now here.now.view.now piece.now) }
{
    match piece {
        FragValuePart::Text(text) => Ok(Some(text.share()?)),
        FragValuePart::Show(part) => text_at(here, part),
    }
}

/// The texts of the parts of a value, if each has one.
pub fn texts_at(here: &Here<'_>, pieces: &[FragValuePart]) -> Result<Option<Texts>, NoMemory>
    ensures { IfOk result (λ texts. texts ≡ spec.texts_at here.now.scene.now.program.now here.now.view.now pieces.now) }
{
    let mut texts = Items::new(here.scene.alloc);
    for piece in pieces {
        match piece_text(here, piece)? {
            Some(text) => texts.push(text)?,
            None => return Ok(None),
        }
    }
    Ok(Some(texts))
}

// The texts of the parts, joined, if each has one.
fn whole_text(here: &Here<'_>, pieces: &[FragValuePart]) -> Result<Option<Held>, NoMemory>
    ensures { IfOk result (λ value. value ≡ spec.value_by here.now.scene.now.program.now here.now.view.now pieces.now None) }
{
    match texts_at(here, pieces)? {
        Some(texts) => {
            let whole = joined(here.scene.alloc, "", texts.as_slice())?;
            Ok(Some(Held::new(Value::Text(whole))))
        }
        None => Ok(None),
    }
}

/// The value of parts: that of one expression alone, or else their texts, joined.
pub fn parts_value(here: &Here<'_>, pieces: &[FragValuePart]) -> Result<Option<Held>, NoMemory>
    ensures { IfOk result (λ value. value ≡ spec.parts_value here.now.scene.now.program.now here.now.view.now pieces.now) }
{
    match alone(pieces) {
        Some(part) => value_at(here, part),
        None => whole_text(here, pieces),
    }
}
