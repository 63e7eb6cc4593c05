// What the attributes and directives of an element come to now.
ghost use Rattle.std.specs.Prelude.{◌≡◌, IfOk};
ghost use Rattle.sv_attributes.specs.Values.{alone as spec_alone};
ghost use Rattle.sv_fresh.specs.States as spec;

use crate::scene::Here;
use crate::values::{holds_at, texts_at, value_at};
use sv_attributes::{alone, attr_of, is_boolean, is_literal};
use sv_base::{Name, NoMemory};
use sv_code::{FragAttr, FragValue, FragValuePart, Part};
use sv_list::Items;
use sv_shapes::{AttrState, AttrStates};

// An expression that is the value of an attribute, or the variable that is bound.
fn shown_at(here: &Here<'_>, name: Name, part: &Part) -> Result<AttrState, NoMemory>
    ensures { IfOk result (λ state. state ≡ spec.shown_at here.now.scene.now.program.now here.now.view.now name part.now) }
{
    let boolean = is_boolean(here.scene.program, name);
    match value_at(here, part)? {
        Some(value) => {
            let attr = attr_of(here.scene.alloc, boolean, value.get())?;
            Ok(AttrState::Shows(attr))
        }
        None => Ok(AttrState::Shows(None)),
    }
}

// The texts of the parts of a value.
fn parts_state(here: &Here<'_>, name: Name, parts: &[FragValuePart]) -> Result<AttrState, NoMemory>
    ensures { IfOk result (λ state. state ≡ spec.parts_state here.now.scene.now.program.now here.now.view.now name parts.now (spec_alone parts.now)) }
{
    if let Some(part) = alone(parts) {
        return shown_at(here, name, part);
    }
    if is_literal(parts) {
        return Ok(AttrState::Written);
    }
    match texts_at(here, parts)? {
        Some(texts) => Ok(AttrState::Texts(texts)),
        None => Ok(AttrState::Shows(None)),
    }
}

fn attr_state(here: &Here<'_>, attr: &FragAttr) -> Result<AttrState, NoMemory>
    ensures { IfOk result (λ state. state ≡ spec.attr_state here.now.scene.now.program.now here.now.view.now attr.now) }
{
    match attr {
        FragAttr::Plain { name, value, .. } => match value {
            FragValue::Bare => Ok(AttrState::Written),
            FragValue::Parts(parts) => parts_state(here, *name, parts.as_slice()),
        },
        FragAttr::On { .. } => Ok(AttrState::Written),
        FragAttr::Bind { name, target, .. } => shown_at(here, *name, target),
        FragAttr::Class { test, .. } => Ok(AttrState::Holds(holds_at(here, test)?)),
    }
}

/// What the attributes and directives of an element come to, in the order of the template.
pub fn states(here: &Here<'_>, attrs: &[FragAttr]) -> Result<AttrStates, NoMemory>
    ensures { IfOk result (λ all. all ≡ spec.states here.now.scene.now.program.now here.now.view.now attrs.now) }
{
    let mut all = Items::new(here.scene.alloc);
    for attr in attrs {
        all.push(attr_state(here, attr)?)?;
    }
    Ok(all)
}
