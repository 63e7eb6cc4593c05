// What a shape of each kind keeps, where there is one and it is of that kind.
ghost use Rattle.std.specs.Prelude.{◌≡◌, option_copied};
ghost use Rattle.sv_shapes.specs.Shapes.{opened, mark_in, text_in, element_in, typed_in, states_in, texts_in, place_in, props_in, arm_in, list_in, rows_in, key_in, parts_in};

use crate::shape::{AttrState, KeyState, Row, Shape, SlotProp, Texts};
use sv_base::Text;
use sv_tokens::Typed;

/// The mark of a text.
pub fn mark_of(old: Option<&Shape>) -> Option<u64>
    ensures { result ≡ mark_in (opened (option_copied old.entry)) }
{
    match old {
        Some(Shape::Literal(mark) | Shape::Text { mark, .. }) => Some(*mark),
        _ => None,
    }
}

/// The text that was shown of an expression.
pub fn shown_text<'a>(old: Option<&'a Shape>) -> Option<&'a Text>
    ensures { option_copied result ≡ text_in (opened (option_copied old.entry)) }
{
    match old {
        Some(Shape::Text { text, .. }) => Some(text),
        _ => None,
    }
}

/// The mark of an element.
pub fn element_of(old: Option<&Shape>) -> Option<u64>
    ensures { result ≡ element_in (opened (option_copied old.entry)) }
{
    match old {
        Some(Shape::Element { mark, .. }) => Some(*mark),
        _ => None,
    }
}

/// The state that a user left in an element.
pub fn typed_of<'a>(old: Option<&'a Shape>) -> Option<&'a Typed>
    ensures { option_copied result ≡ typed_in (opened (option_copied old.entry)) }
{
    match old {
        Some(Shape::Element { typed, .. }) => typed.as_ref(),
        _ => None,
    }
}

/// What the attributes of an element came to.
pub fn states_of<'a>(old: Option<&'a Shape>) -> &'a [AttrState]
    ensures { result.now ≡ states_in (opened (option_copied old.entry)) }
{
    match old {
        Some(Shape::Element { states, .. }) => states.as_slice(),
        _ => &[],
    }
}

/// The texts that are kept of the attributes of a component's tag.
pub fn texts_of<'a>(old: Option<&'a Shape>) -> &'a [Texts]
    ensures { result.now ≡ texts_in (opened (option_copied old.entry)) }
{
    match old {
        Some(Shape::Tag { texts, .. }) => texts.as_slice(),
        _ => &[],
    }
}

/// The place of a component's tag.
pub fn place_of(old: Option<&Shape>) -> Option<u64>
    ensures { result ≡ place_in (opened (option_copied old.entry)) }
{
    match old {
        Some(Shape::Tag { place, .. }) => Some(*place),
        _ => None,
    }
}

/// The props of a slot.
pub fn props_of<'a>(old: Option<&'a Shape>) -> &'a [SlotProp]
    ensures { result.now ≡ props_in (opened (option_copied old.entry)) }
{
    match old {
        Some(Shape::Slot { props, .. }) => props.as_slice(),
        _ => &[],
    }
}

/// The branch of an if block.
pub fn arm_of(old: Option<&Shape>) -> Option<usize>
    ensures { result ≡ arm_in (opened (option_copied old.entry)) }
{
    match old {
        Some(Shape::If { arm, .. }) => Some(*arm),
        _ => None,
    }
}

/// The number of the list of an each block.
pub fn list_of(old: Option<&Shape>) -> Option<u64>
    ensures { result ≡ list_in (opened (option_copied old.entry)) }
{
    match old {
        Some(Shape::Each { number, .. }) => Some(*number),
        _ => None,
    }
}

/// The rows of an each block.
pub fn rows_of<'a>(old: Option<&'a Shape>) -> &'a [Row]
    ensures { result.now ≡ rows_in (opened (option_copied old.entry)) }
{
    match old {
        Some(Shape::Each { rows, .. }) => rows.as_slice(),
        _ => &[],
    }
}

/// What a key block showed.
pub fn key_of<'a>(old: Option<&'a Shape>) -> Option<&'a KeyState>
    ensures { option_copied result ≡ key_in (opened (option_copied old.entry)) }
{
    match old {
        Some(Shape::Key { state, .. }) => Some(state),
        _ => None,
    }
}

/// The content; that of an each block is the branch for no rows.
pub fn parts_of<'a>(old: Option<&'a Shape>) -> &'a [Shape]
    ensures { result.now ≡ parts_in (opened (option_copied old.entry)) }
{
    match old {
        Some(
            Shape::Element { parts, .. }
            | Shape::Slot { parts, .. }
            | Shape::If { parts, .. }
            | Shape::Key { parts, .. },
        ) => parts.as_slice(),
        Some(Shape::Each { none, .. }) => none.as_slice(),
        _ => &[],
    }
}
