// Slot props, and the views on which content is shown.
ghost use Rattle.std.specs.Prelude.{◌≡◌, option_copied, IfOk};
ghost use Rattle.sv_parts.specs.State.{Meets};
ghost use Rattle.sv_parts.specs.Sides.{sides};
ghost use Rattle.sv_plan.specs.Slots as spec;

use sv_base::{Name, NoMemory, Text};
use sv_code::{FragAttr, LetName};
use sv_list::Items;
use sv_parts::{Before, Here, PatchError, State, Valued, number, passed_name, take_passed};
use sv_shapes::{Held, SlotProp, SlotProps, Texts};
use sv_value::Value;
use sv_view::View;

// The prop of a name.
fn prop_named(name: Name, props: &[SlotProp]) -> Option<&SlotProp>
    ensures { option_copied result ≡ spec.prop_named name props.now }
{
    for prop in props {
        if prop.name == name {
            return Some(prop);
        }
    }
    None
}

// A prop that was evaluated takes a number.
fn prop_anew(
    name: Name,
    texts: Texts,
    value: Held,
    state: &mut State,
) -> Result<SlotProp, PatchError>
    ensures { Meets result state.new (spec.prop_anew name texts value state.old) }
{
    match number(state) {
        Ok(number) => Ok(SlotProp {
            name,
            value,
            number,
            texts,
        }),
        Err(error) => Err(error),
    }
}

// A prop that there was stays as it is where nothing of it was evaluated.
fn prop_by(
    here: &Here<'_>,
    name: Name,
    old: Option<&SlotProp>,
    valued: Valued,
    state: &mut State,
) -> Result<SlotProp, PatchError>
    ensures { Meets result state.new (spec.prop_by name (option_copied old.entry) valued.texts valued.value state.old) }
{
    let Valued { texts, value } = valued;
    match value {
        Some(value) => prop_anew(name, texts, value, state),
        None => match old {
            Some(old) => Ok(old.share(here.alloc)?),
            None => prop_anew(name, texts, Held::new(Value::Undefined), state),
        },
    }
}

// The texts that are kept of a prop.
fn texts_of(old: Option<&SlotProp>) -> &[Text]
    ensures { result.now ≡ spec.texts_of (option_copied old.entry) }
{
    match old {
        Some(old) => old.texts.as_slice(),
        None => &[],
    }
}

// A prop under its name.
fn take_prop(
    here: &Here<'_>,
    attr: &FragAttr,
    name: Name,
    old: Option<&SlotProp>,
    state: &mut State,
) -> Result<SlotProp, PatchError>
    ensures { Meets result state.new (spec.prop_step here.now.program.now attr.now name (option_copied old.entry) (sides here.now) state.old) }
{
    let before = Before {
        texts: texts_of(old),
        is_new: old.is_none(),
    };
    match take_passed(here, attr, &before, state) {
        Ok(valued) => prop_by(here, name, old, valued, state),
        Err(error) => Err(error),
    }
}

/// The props of a slot in source order, of which there were some; what their values refuse is refused.
pub fn take_props(
    here: &Here<'_>,
    attrs: &[FragAttr],
    olds: &[SlotProp],
    state: &mut State,
) -> Result<SlotProps, PatchError>
    ensures { Meets result state.new (spec.props_step here.now.program.now attrs.now olds.now (sides here.now) state.old) }
{
    let mut props = Items::new(here.alloc);
    for attr in attrs {
        let Some(name) = passed_name(attr) else {
            continue;
        };
        match take_prop(here, attr, name, prop_named(name, olds), state) {
            Ok(prop) => props.push(prop)?,
            Err(error) => return Err(error),
        }
    }
    Ok(props)
}

// A name of content; one for which there is no prop is `undefined` and never moves.
fn with_let(name: LetName, props: &[SlotProp], view: &View) -> Result<View, NoMemory>
    ensures { IfOk result (λ v. v ≡ spec.let_by name (spec.prop_named name.prop props.now) view.now) }
{
    match prop_named(name.prop, props) {
        Some(prop) => {
            let value = prop.value.share()?;
            view.with_local(name.local, value.into_value(), prop.number)
        }
        None => view.with_local(name.local, Value::Undefined, 0),
    }
}

// The view of the owner, or the same one where there is none.
fn outer(view: &View) -> Result<View, NoMemory>
    ensures { IfOk result (λ v. v ≡ spec.outer view.now) }
{
    match view.owner()? {
        Some(owner) => Ok(owner),
        None => view.share(),
    }
}

/// The view on which content is shown: the owner's, with slot props under the names that it has for them.
#[tactic(auto, unfolding(crate::specs::Slots::content_view))]
pub fn content_view(lets: &[LetName], props: &[SlotProp], view: &View) -> Result<View, NoMemory>
    ensures { IfOk result (λ v. v ≡ spec.content_view lets.now props.now view.now) }
{
    let mut shown = outer(view)?;
    for name in lets {
        shown = with_let(*name, props, &shown)?;
    }
    Ok(shown)
}
