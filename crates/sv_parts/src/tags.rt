// Component tags.
ghost use Rattle.std.specs.Prelude.{◌≡◌, ◌++◌, option_copied, option_map, IfOk, OnOk};
ghost use Rattle.std.specs.Option.{option_to_list, option_and_then};
ghost use Rattle.sv_value.specs.View.{view_of};
ghost use Rattle.sv_meaning.specs.Components.{component_at};
ghost use Rattle.sv_parts.specs.State.{Meets};
ghost use Rattle.sv_parts.specs.Sides.{sides};
ghost use Rattle.sv_parts.specs.Tags as spec;

use crate::here::Here;
use crate::refusal::PatchError;
use crate::state::{Effect, Given, Kept, State, emit, number, remember};
use crate::values::{Before, Valued, take_alone, take_value};
use sv_base::{Name, NoMemory, Span, Text};
use sv_code::{Component, FragAttr, Prop, Tag};
use sv_list::Items;
use sv_meaning::component_at;
use sv_shapes::{Held, Shape, TagTexts, Texts, share_texts};
use sv_value::Value;
use sv_view::View;

/// A value that an attribute of a tag passes under its name, whether it is that of a variable that is bound, and the attribute's place.
#[derive(Drop)]
pub struct Passed {
    pub name: Name,
    pub value: Held,
    pub bound: bool,
    pub span: Span,
}

/// What an attribute of a tag gives: the texts of its parts, which are kept, and what it passes, if anything.
#[derive(Drop)]
pub struct Offer {
    pub texts: Texts,
    pub passed: Option<Passed>,
}

// The texts that are kept of the attribute with a number.
fn texts_at(texts: &[Texts], index: usize) -> &[Text]
    ensures { result.now ≡ spec.texts_at texts.now index }
{
    match texts.get(index) {
        Some(texts) => texts.as_slice(),
        None => &[],
    }
}

/// The name under which an attribute passes a value, if it does.
pub fn passed_name(attr: &FragAttr) -> Option<Name>
    ensures { result ≡ spec.passed_name attr.now }
{
    match attr {
        FragAttr::Plain { name, .. } | FragAttr::Bind { name, .. } => Some(*name),
        FragAttr::On { .. } | FragAttr::Class { .. } => None,
    }
}

/// The value that an attribute passes, where it is new or something of it moved; a fault of a part is refused, and of joined texts `NotText` and
/// `Large`.
pub fn take_passed(
    here: &Here<'_>,
    attr: &FragAttr,
    before: &Before<'_>,
    state: &mut State,
) -> Result<Valued, PatchError>
    ensures { Meets result state.new (spec.passed_value here.now.program.now attr.now before.now.texts.now before.now.is_new (sides here.now) state.old) }
{
    match attr {
        FragAttr::Plain { span, value, .. } => take_value(here, *span, value, before, state),
        FragAttr::On { .. } => Ok(Valued::none(here)),
        FragAttr::Bind { target, .. } => take_alone(here, target, before.is_new, state),
        FragAttr::Class { .. } => Ok(Valued::none(here)),
    }
}

fn is_undefined(value: &Value) -> bool
    ensures { result ≡ spec.is_undefined (view_of value.now) }
{
    match value {
        Value::Undefined => true,
        _ => false,
    }
}

// What an attribute that is new or not passes with a value.
fn pass(attr: &FragAttr, is_new: bool, value: Held) -> Option<Passed>
    ensures { result ≡ spec.passed_as attr.now is_new value }
{
    match attr {
        FragAttr::Plain { span, name, .. } => Some(Passed {
            name: *name,
            value,
            bound: false,
            span: *span,
        }),
        FragAttr::Bind { span, name, .. } => {
            if is_new && is_undefined(value.get()) {
                return None;
            }
            Some(Passed {
                name: *name,
                value,
                bound: true,
                span: *span,
            })
        }
        FragAttr::On { .. } | FragAttr::Class { .. } => None,
    }
}

// What an attribute offers with what was taken of it.
fn offer_of(attr: &FragAttr, is_new: bool, valued: Valued) -> Offer
    ensures { result ≡ spec.offered attr.now is_new valued }
{
    let Valued { texts, value } = valued;
    match value {
        Some(value) => Offer {
            texts,
            passed: pass(attr, is_new, value),
        },
        None => Offer {
            texts,
            passed: None,
        },
    }
}

// An attribute of a tag.
fn take_offer(
    here: &Here<'_>,
    attr: &FragAttr,
    before: &Before<'_>,
    state: &mut State,
) -> Result<Offer, PatchError>
    ensures { Meets result state.new (spec.offer_step here.now.program.now attr.now before.now.texts.now before.now.is_new (sides here.now) state.old) }
{
    match take_passed(here, attr, before, state) {
        Ok(valued) => Ok(offer_of(attr, before.is_new, valued)),
        Err(error) => Err(error),
    }
}

// The attributes of a tag, which is new or not.
fn take_offers(
    here: &Here<'_>,
    attrs: &[FragAttr],
    texts: &[Texts],
    is_new: bool,
    state: &mut State,
) -> Result<Items<Offer>, PatchError>
    ensures { Meets result state.new (spec.offers_step here.now.program.now attrs.now texts.now is_new (sides here.now) state.old) }
{
    let mut offers = Items::new(here.alloc);
    for index in 0..attrs.len() {
        let before = Before {
            texts: texts_at(texts, index),
            is_new,
        };
        match take_offer(here, &attrs[index], &before, state) {
            Ok(own) => offers.push(own)?,
            Err(error) => return Err(error),
        }
    }
    Ok(offers)
}

// Whether a value is passed under a name.
fn is_under(name: Name, passed: Option<&Passed>) -> bool
    ensures { result ≡ spec.is_under name (option_copied passed.entry) }
{
    match passed {
        Some(passed) => passed.name == name,
        None => false,
    }
}

// The first that is passed under a name.
fn passed_under(name: Name, offers: &[Offer]) -> Option<&Passed>
    ensures { option_copied result ≡ spec.passed_under name offers.now }
{
    for offer in offers {
        if is_under(name, offer.passed.as_ref()) {
            return offer.passed.as_ref();
        }
    }
    None
}

// Gives a prop what is passed under its name.
fn give(all: &mut Items<Given>, prop: Prop, passed: Option<&Passed>) -> Result<(), NoMemory>
    ensures { OnOk result (all.new ≡ all.old ++ option_to_list (option_map (spec.given_as prop) (option_copied passed.entry))) }
{
    match passed {
        Some(passed) => all.push(Given {
            cell: prop.cell,
            value: passed.value.share()?,
            bound: passed.bound,
            span: passed.span,
        }),
        None => Ok(()),
    }
}

// What the props of a component are given, in the order of their declaration.
fn give_all(here: &Here<'_>, props: &[Prop], offers: &[Offer]) -> Result<Items<Given>, NoMemory>
    ensures { IfOk result (λ all. all ≡ spec.props_given props.now offers.now) }
{
    let mut all = Items::new(here.alloc);
    for prop in props {
        give(&mut all, *prop, passed_under(prop.name, offers))?;
    }
    Ok(all)
}

// The texts that are kept of the attributes of a tag.
fn texts_offered(here: &Here<'_>, offers: &[Offer]) -> Result<TagTexts, NoMemory>
    ensures { IfOk result (λ texts. texts ≡ spec.texts_of offers.now) }
{
    let mut texts = Items::new(here.alloc);
    for offer in offers {
        texts.push(share_texts(here.alloc, offer.texts.as_slice())?)?;
    }
    Ok(texts)
}

fn props_of(component: Option<&Component>) -> &[Prop]
    ensures { result.now ≡ spec.props_at (option_copied component.entry) }
{
    match component {
        Some(component) => component.props.as_slice(),
        None => &[],
    }
}

fn shows_content(component: Option<&Component>) -> bool
    ensures { result ≡ spec.shows_content (option_copied component.entry) }
{
    match component {
        Some(component) => component.view.is_some(),
        None => false,
    }
}

// What a tag gives the props of its component.
fn props_given(here: &Here<'_>, tag: &Tag, offers: &[Offer]) -> Result<Items<Given>, NoMemory>
    ensures { IfOk result (λ all. all ≡ spec.props_given (spec.props_at (component_at here.now.program.now tag.now.file)) offers.now) }
{
    give_all(
        here,
        props_of(component_at(here.program, tag.file as u32)),
        offers,
    )
}

// A child is made with what is offered.
fn create(
    here: &Here<'_>,
    tag: u32,
    props: Items<Given>,
    texts: TagTexts,
    state: &mut State,
) -> Result<Shape, PatchError>
    ensures { Meets result state.new (spec.create_step tag props texts (sides here.now) state.old) }
{
    let view = here.new.share()?;
    match number(state) {
        Ok(place) => {
            let effect = Effect::Create {
                place,
                tag,
                props,
                view,
            };
            match emit(state, effect) {
                Ok(()) => Ok(Shape::Tag { place, texts }),
                Err(error) => Err(error),
            }
        }
        Err(error) => Err(error),
    }
}

// A new place.
fn plan_new(here: &Here<'_>, number: u32, tag: &Tag, state: &mut State) -> Result<Shape, PatchError>
    ensures { Meets result state.new (spec.new_tag here.now.program.now number tag.now (sides here.now) state.old) }
{
    match take_offers(here, tag.attrs.as_slice(), &[], true, state) {
        Ok(offers) => {
            let props = props_given(here, tag, offers.as_slice())?;
            let texts = texts_offered(here, offers.as_slice())?;
            create(here, number, props, texts, state)
        }
        Err(error) => Err(error),
    }
}

// The view for the content, where the child shows it and it looks at something that moved.
fn view_for(here: &Here<'_>, tag: &Tag) -> Result<Option<View>, NoMemory>
    ensures { IfOk result (λ view. view ≡ spec.view_for here.now.program.now tag.now (sides here.now)) }
{
    if shows_content(component_at(here.program, tag.file as u32)) && here.has_moved(&tag.reads) {
        Ok(Some(here.new.share()?))
    } else {
        Ok(None)
    }
}

// Sets what moved, if anything did.
fn set(
    place: u64,
    props: Items<Given>,
    view: Option<View>,
    state: &mut State,
) -> Result<(), PatchError>
    ensures { Meets result state.new (spec.set_step place props view state.old) }
{
    if props.is_empty() && view.is_none() {
        return Ok(());
    }
    emit(state, Effect::Set { place, props, view })
}

// The child at a place that stays is set what moved.
fn keep(
    here: &Here<'_>,
    place: u64,
    props: Items<Given>,
    view: Option<View>,
    state: &mut State,
) -> Result<(), PatchError>
    ensures { Meets result state.new (spec.keep_step place props view (sides here.now) state.old) }
{
    let locals = here.new.locals().share()?;
    match set(place, props, view, state) {
        Ok(()) => remember(state, Kept { place, locals }),
        Err(error) => Err(error),
    }
}

// A place that stays.
fn plan_kept(
    here: &Here<'_>,
    tag: &Tag,
    place: u64,
    texts: &[Texts],
    state: &mut State,
) -> Result<Shape, PatchError>
    ensures { Meets result state.new (spec.kept_tag here.now.program.now tag.now place texts.now (sides here.now) state.old) }
{
    match take_offers(here, tag.attrs.as_slice(), texts, false, state) {
        Ok(offers) => {
            let props = props_given(here, tag, offers.as_slice())?;
            let texts = texts_offered(here, offers.as_slice())?;
            let view = view_for(here, tag)?;
            match keep(here, place, props, view, state) {
                Ok(()) => Ok(Shape::Tag { place, texts }),
                Err(error) => Err(error),
            }
        }
        Err(error) => Err(error),
    }
}

/// The tag with a number, at a place that it had or a new one, and its effect on the child there; nothing where the program has no such tag. What
/// its attributes refuse is refused.
pub fn plan_tag(
    here: &Here<'_>,
    number: u32,
    old: Option<u64>,
    texts: &[Texts],
    state: &mut State,
) -> Result<Shape, PatchError>
    ensures { Meets result state.new (spec.tag_step here.now.program.now number old texts.now (sides here.now) state.old) }
{
    let tags = here.program.tags.as_slice();
    match tags.get(number as usize) {
        Some(tag) => match old {
            Some(place) => plan_kept(here, tag, place, texts, state),
            None => plan_new(here, number, tag, state),
        },
        None => Ok(Shape::Nothing),
    }
}
