// Values of attributes.
ghost use Rattle.std.specs.Prelude.{◌≡◌, option_copied, slice_get};
ghost use Rattle.sv_parts.specs.State.{Meets};
ghost use Rattle.sv_parts.specs.Sides.{sides};
ghost use Rattle.sv_parts.specs.Values as spec;

use crate::here::Here;
use crate::parts::{evaluate, renew_text};
use crate::refusal::{PatchError, Refusal};
use crate::state::State;
use sv_attributes::alone;
use sv_base::{Span, Text};
use sv_code::{FragValue, FragValuePart, Part};
use sv_list::Items;
use sv_ops::{Fault, OpError};
use sv_shapes::{Held, Texts, share_texts};
use sv_value::Value;

/// What the value of an attribute passes, if anything of it was evaluated or it is new, and the texts of its parts, where they are joined.
#[derive(Drop)]
pub struct Valued {
    pub texts: Texts,
    pub value: Option<Held>,
}

/// What was kept of an attribute: the texts of the parts of its value; and whether its place is new.
#[derive(Clone, Copy)]
pub struct Before<'a> {
    pub texts: &'a [Text],
    pub is_new: bool,
}

impl Valued {
    /// Nothing was evaluated.
    pub fn none(here: &Here<'_>) -> Valued
        ensures { result ≡ spec.unvalued }
    {
        Valued {
            texts: Items::new(here.alloc),
            value: None,
        }
    }

    // A value that passes as it is.
    fn passed(here: &Here<'_>, value: Held) -> Valued
        ensures { result ≡ spec.passed value }
    {
        Valued {
            texts: Items::new(here.alloc),
            value: Some(value),
        }
    }

    // What an attribute without a value passes.
    fn bare(here: &Here<'_>, is_new: bool) -> Valued
        ensures { result ≡ spec.bare is_new }
    {
        if is_new {
            Valued::passed(here, Held::new(Value::Bool(true)))
        } else {
            Valued::none(here)
        }
    }
}

/// What an expression alone passes, which is new or not; a fault of it is refused.
pub fn take_alone(
    here: &Here<'_>,
    part: &Part,
    is_new: bool,
    state: &mut State,
) -> Result<Valued, PatchError>
    ensures { Meets result state.new (spec.alone_step here.now.program.now part.now is_new (sides here.now) state.old) }
{
    if is_new || here.has_moved(&part.reads) {
        match evaluate(here, part, state) {
            Ok(value) => Ok(Valued::passed(here, value)),
            Err(error) => Err(error),
        }
    } else {
        Ok(Valued::none(here))
    }
}

// The text that was kept of a part.
fn text_at(olds: &[Text], index: usize) -> Option<&Text>
    ensures { option_copied result ≡ slice_get olds.now index }
{
    olds.get(index)
}

// Whether a part is to be evaluated.
fn is_part_due(here: &Here<'_>, part: &FragValuePart, old: Option<&Text>) -> bool
    ensures { result ≡ spec.part_due (sides here.now) part.now (option_copied old.entry) }
{
    match part {
        FragValuePart::Text(_) => false,
        FragValuePart::Show(part) => old.is_none() || here.has_moved(&part.reads),
    }
}

/// Whether one of the parts is to be evaluated, where some texts of them were kept.
pub fn is_due(here: &Here<'_>, parts: &[FragValuePart], olds: &[Text]) -> bool
    ensures { result ≡ spec.is_due (sides here.now) olds.now parts.now }
{
    for index in 0..parts.len() {
        if is_part_due(here, &parts[index], text_at(olds, index)) {
            return true;
        }
    }
    false
}

// The text of a part, which is new where the part is to be evaluated.
fn take_text(
    here: &Here<'_>,
    part: &FragValuePart,
    old: Option<&Text>,
    state: &mut State,
) -> Result<Text, PatchError>
    ensures { Meets result state.new (spec.part_text here.now.program.now (sides here.now) part.now (option_copied old.entry) state.old) }
{
    match part {
        FragValuePart::Text(text) => Ok(text.share()?),
        FragValuePart::Show(part) => renew_text(here, part, old, state),
    }
}

// The texts of all parts.
fn take_texts(
    here: &Here<'_>,
    parts: &[FragValuePart],
    olds: &[Text],
    state: &mut State,
) -> Result<Texts, PatchError>
    ensures { Meets result state.new (spec.part_texts here.now.program.now (sides here.now) olds.now parts.now state.old) }
{
    let mut texts = Items::new(here.alloc);
    for index in 0..parts.len() {
        match take_text(here, &parts[index], text_at(olds, index), state) {
            Ok(text) => texts.push(text)?,
            Err(error) => return Err(error),
        }
    }
    Ok(texts)
}

// Texts joined, at the place of their attribute; `Large` where they are too large for a value.
fn join(here: &Here<'_>, span: Span, texts: &[Text], state: &State) -> Result<Held, PatchError>
    ensures { Meets result state.now (spec.joined span texts.now state.now) }
{
    match sv_ops::joined(here.alloc, "", texts) {
        Ok(given) => Ok(Held::new(given.value)),
        Err(OpError::Fault(kind)) => {
            Err(PatchError::Refused(Refusal::Fault(Fault { kind, span })))
        }
        Err(OpError::NoMemory) => Err(PatchError::NoMemory),
    }
}

// The texts of the parts, and all of them joined.
fn join_anew(
    here: &Here<'_>,
    span: Span,
    parts: &[FragValuePart],
    olds: &[Text],
    state: &mut State,
) -> Result<Valued, PatchError>
    ensures { Meets result state.new (spec.joined_anew here.now.program.now span parts.now olds.now (sides here.now) state.old) }
{
    match take_texts(here, parts, olds, state) {
        Ok(texts) => match join(here, span, texts.as_slice(), state) {
            Ok(whole) => Ok(Valued {
                texts,
                value: Some(whole),
            }),
            Err(error) => Err(error),
        },
        Err(error) => Err(error),
    }
}

/// The joined texts of the parts, which are joined where they are new or some part is to be evaluated: `NotText` at the first part that has no
/// text, `Large` at the attribute where all of them are too long for a value.
pub fn take_joined(
    here: &Here<'_>,
    span: Span,
    parts: &[FragValuePart],
    before: &Before<'_>,
    state: &mut State,
) -> Result<Valued, PatchError>
    ensures { Meets result state.new (spec.joined_step here.now.program.now span parts.now before.now.texts.now before.now.is_new (sides here.now) state.old) }
{
    if before.is_new || is_due(here, parts, before.texts) {
        return join_anew(here, span, parts, before.texts, state);
    }
    Ok(Valued {
        texts: share_texts(here.alloc, before.texts)?,
        value: None,
    })
}

/// What a value passes, which is new or not; it refuses what its expression alone or its joined texts do.
pub fn take_value(
    here: &Here<'_>,
    span: Span,
    value: &FragValue,
    before: &Before<'_>,
    state: &mut State,
) -> Result<Valued, PatchError>
    ensures { Meets result state.new (spec.value_step here.now.program.now span value.now before.now.texts.now before.now.is_new (sides here.now) state.old) }
{
    match value {
        FragValue::Bare => Ok(Valued::bare(here, before.is_new)),
        FragValue::Parts(parts) => match alone(parts.as_slice()) {
            Some(part) => take_alone(here, part, before.is_new, state),
            None => take_joined(here, span, parts.as_slice(), before, state),
        },
    }
}
