// Attributes of elements.
ghost use Rattle.std.specs.Prelude.{◌≡◌, option_copied, IfOk};
ghost use Rattle.sv_parts.specs.State.{Meets};
ghost use Rattle.sv_parts.specs.Sides.{sides};
ghost use Rattle.sv_parts.specs.Attributes as spec;

use crate::here::Here;
use crate::parts::{evaluate, fault_at, has_text};
use crate::refusal::PatchError;
use crate::state::State;
use crate::values::{Before, is_due, take_joined};
use sv_attributes::{alone, attr_of, is_boolean, is_literal, place_of, state_at};
use sv_base::{Name, NoMemory, Span, Text};
use sv_code::{FragAttr, FragValue, FragValuePart, Part};
use sv_list::Items;
use sv_ops::FaultKind;
use sv_shapes::{AttrState, AttrStates, Held};
use sv_tokens::Typed;
use sv_value::truthy;

// The texts that were kept of the parts of a value.
fn texts_kept<'a>(old: Option<&'a AttrState>) -> &'a [Text]
    ensures { result.now ≡ spec.texts_kept (option_copied old.entry) }
{
    match old {
        Some(AttrState::Texts(texts)) => texts.as_slice(),
        _ => &[],
    }
}

// What an attribute comes to with a value.
fn show_with(
    here: &Here<'_>,
    name: Name,
    part: &Part,
    value: &Held,
    state: &State,
) -> Result<AttrState, PatchError>
    ensures { Meets result state.now (spec.shown_with here.now.program.now name part.now value.now state.now) }
{
    let boolean = is_boolean(here.program, name);
    if boolean || has_text(value.get()) {
        let attr = attr_of(here.alloc, boolean, value.get())?;
        return Ok(AttrState::Shows(attr));
    }
    Err(fault_at(FaultKind::NotText, part))
}

// What an attribute comes to with an expression.
fn show_anew(
    here: &Here<'_>,
    name: Name,
    part: &Part,
    state: &mut State,
) -> Result<AttrState, PatchError>
    ensures { Meets result state.new (spec.shown_anew here.now.program.now name part.now (sides here.now) state.old) }
{
    match evaluate(here, part, state) {
        Ok(value) => show_with(here, name, part, &value, state),
        Err(error) => Err(error),
    }
}

// An expression that is the value of an attribute, from what that came to before, if it did.
fn show_alone(
    here: &Here<'_>,
    name: Name,
    part: &Part,
    old: Option<&AttrState>,
    state: &mut State,
) -> Result<AttrState, PatchError>
    ensures { Meets result state.new (spec.shown_step here.now.program.now name part.now (option_copied old.entry) (sides here.now) state.old) }
{
    match old {
        Some(old) => {
            if here.has_moved(&part.reads) {
                show_anew(here, name, part, state)
            } else {
                Ok(old.share(here.alloc)?)
            }
        }
        None => show_anew(here, name, part, state),
    }
}

// A directive `class:`.
fn hold_anew(here: &Here<'_>, part: &Part, state: &mut State) -> Result<AttrState, PatchError>
    ensures { Meets result state.new (spec.class_anew here.now.program.now part.now (sides here.now) state.old) }
{
    match evaluate(here, part, state) {
        Ok(value) => Ok(AttrState::Holds(truthy(value.get()))),
        Err(error) => Err(error),
    }
}

// The same, from what it came to before, if it did.
fn show_class(
    here: &Here<'_>,
    part: &Part,
    old: Option<&AttrState>,
    state: &mut State,
) -> Result<AttrState, PatchError>
    ensures { Meets result state.new (spec.class_step here.now.program.now part.now (option_copied old.entry) (sides here.now) state.old) }
{
    match old {
        Some(old) => {
            if here.has_moved(&part.reads) {
                hold_anew(here, part, state)
            } else {
                Ok(old.share(here.alloc)?)
            }
        }
        None => hold_anew(here, part, state),
    }
}

// The texts of the parts of a value that are joined.
fn show_joined(
    here: &Here<'_>,
    span: Span,
    parts: &[FragValuePart],
    old: Option<&AttrState>,
    state: &mut State,
) -> Result<AttrState, PatchError>
    ensures { Meets result state.new (spec.shown_joined here.now.program.now span parts.now (option_copied old.entry) (sides here.now) state.old) }
{
    let before = Before {
        texts: texts_kept(old),
        is_new: false,
    };
    match take_joined(here, span, parts, &before, state) {
        Ok(valued) => Ok(AttrState::Texts(valued.texts)),
        Err(error) => Err(error),
    }
}

// An attribute or a directive, from what it came to before, if it did.
fn show_attr(
    here: &Here<'_>,
    attr: &FragAttr,
    old: Option<&AttrState>,
    state: &mut State,
) -> Result<AttrState, PatchError>
    ensures { Meets result state.new (spec.attr_step here.now.program.now attr.now (option_copied old.entry) (sides here.now) state.old) }
{
    match attr {
        FragAttr::Plain { span, name, value } => match value {
            FragValue::Bare => Ok(AttrState::Written),
            FragValue::Parts(parts) => match alone(parts.as_slice()) {
                Some(part) => show_alone(here, *name, part, old, state),
                None => {
                    if is_literal(parts.as_slice()) {
                        Ok(AttrState::Written)
                    } else {
                        show_joined(here, *span, parts.as_slice(), old, state)
                    }
                }
            },
        },
        FragAttr::On { .. } => Ok(AttrState::Written),
        FragAttr::Bind { name, target, .. } => show_alone(here, *name, target, old, state),
        FragAttr::Class { test, .. } => show_class(here, test, old, state),
    }
}

/// The attributes and directives of an element in source order, from what they came to before; none did where the element is new. The first
/// fault of a part that is evaluated is refused, and `NotText` where a part that is shown as text has none.
pub fn show_attrs(
    here: &Here<'_>,
    attrs: &[FragAttr],
    olds: &[AttrState],
    state: &mut State,
) -> Result<AttrStates, PatchError>
    ensures { Meets result state.new (spec.attrs_step here.now.program.now attrs.now olds.now (sides here.now) state.old) }
{
    let mut all = Items::new(here.alloc);
    for index in 0..attrs.len() {
        match show_attr(here, &attrs[index], state_at(olds, index), state) {
            Ok(own) => all.push(own)?,
            Err(error) => return Err(error),
        }
    }
    Ok(all)
}

// Whether a part of a value is to be evaluated.
fn is_value_due(here: &Here<'_>, value: &FragValue, old: Option<&AttrState>) -> bool
    ensures { result ≡ spec.value_due (sides here.now) value.now (option_copied old.entry) }
{
    match value {
        FragValue::Bare => false,
        FragValue::Parts(parts) => match alone(parts.as_slice()) {
            Some(part) => here.has_moved(&part.reads),
            None => is_due(here, parts.as_slice(), texts_kept(old)),
        },
    }
}

// Whether a part of the attribute of a name is to be evaluated.
fn is_attr_due(here: &Here<'_>, own: &str, attr: &FragAttr, old: Option<&AttrState>) -> bool
    ensures { result ≡ spec.attr_due here.now.program.now (sides here.now) own.now attr.now (option_copied old.entry) }
{
    let names = &here.program.names;
    match attr {
        FragAttr::Plain { name, value, .. } => {
            names.is_text(*name, own) && is_value_due(here, value, old)
        }
        FragAttr::Bind { name, target, .. } => {
            names.is_text(*name, own) && here.has_moved(&target.reads)
        }
        FragAttr::On { .. } | FragAttr::Class { .. } => false,
    }
}

// The same of one of these attributes.
fn is_one_due(here: &Here<'_>, own: &str, attrs: &[FragAttr], olds: &[AttrState]) -> bool
    ensures { result ≡ spec.due_among here.now.program.now (sides here.now) own.now olds.now 0 attrs.now }
{
    for index in 0..attrs.len() {
        if is_attr_due(here, own, &attrs[index], state_at(olds, index)) {
            return true;
        }
    }
    false
}

/// The state that is left in an element: it goes where a part of the attribute is evaluated over which it is laid.
pub fn typed_after(
    here: &Here<'_>,
    attrs: &[FragAttr],
    olds: &[AttrState],
    typed: Option<&Typed>,
) -> Result<Option<Typed>, NoMemory>
    ensures { IfOk result (λ after. after ≡ spec.typed_after here.now.program.now (sides here.now) attrs.now olds.now (option_copied typed.entry)) }
{
    match typed {
        Some(typed) => {
            if is_one_due(here, place_of(typed), attrs, olds) {
                Ok(None)
            } else {
                Ok(Some(typed.share()?))
            }
        }
        None => Ok(None),
    }
}
