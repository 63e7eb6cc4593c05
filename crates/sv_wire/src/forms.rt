// Items, read from the front of bytes.
ghost use Rattle.std.specs.Prelude.{◌≡◌, ◌≤◌, length, drop, IfOk};
ghost use Rattle.sv_wire.specs.Reading.{Gives, item_at, fields_at, make_at, set_text_at, set_flag_at, set_attr_at, drop_attr_at, untyped_at, typed_text_at, typed_box_at, move_at, remove_at, kind_of};

use crate::fields::{serial_of, slot_of, text_of};
use crate::flaw::{Flaw, ReadError};
use crate::item::Item;
use std::alloc::Global;
use sv_tokens::{Attr, Change, Typed, What};

/// The item at the front, and how many bytes it has.
pub fn item_of(alloc: Global, bytes: &[u8]) -> Result<(Item, usize), ReadError>
    ensures item { Gives (λ x. (x.0, drop x.1 bytes.now)) result (item_at bytes.now) }
    ensures bound { IfOk result (λ x. x.1 ≤ length bytes.now) }
{
    let (item, rest) = front(alloc, bytes)?;
    Ok((item, bytes.len() - rest.len()))
}

#[tactic(auto, unfolding(crate::specs::Reading::item_at))]
fn front(alloc: Global, bytes: &[u8]) -> Result<(Item, &[u8]), ReadError>
    ensures { Gives (λ x. (x.0, x.1.now)) result (item_at bytes.now) }
{
    match bytes {
        [] => Err(ReadError::Flaw(Flaw::Wants(1))),
        [kind, rest @ ..] => fields_of(alloc, *kind, rest),
    }
}

// The item of the form with that byte, of its fields.
#[tactic(auto, unfolding(crate::specs::Reading::fields_at))]
fn fields_of(alloc: Global, kind: u8, bytes: &[u8]) -> Result<(Item, &[u8]), ReadError>
    ensures { Gives (λ x. (x.0, x.1.now)) result (fields_at kind bytes.now) }
{
    match kind {
        1 => make_of(alloc, true, bytes),
        2 => make_of(alloc, false, bytes),
        3 => set_text_of(alloc, bytes),
        4 => set_flag_of(alloc, bytes),
        5 => set_attr_of(alloc, bytes),
        6 => drop_attr_of(bytes),
        7 => untyped_of(bytes),
        8 => typed_text_of(alloc, bytes),
        9 => typed_box_of(false, bytes),
        10 => typed_box_of(true, bytes),
        11 => move_of(bytes),
        12 => remove_of(bytes),
        13 => Ok((Item::Turn { target: true }, bytes)),
        14 => Ok((Item::Turn { target: false }, bytes)),
        15 => Ok((Item::End, bytes)),
        _ => Err(ReadError::Flaw(Flaw::Wrong)),
    }
}

// A new element, or a new text.
#[tactic(auto, unfolding(crate::specs::Reading::make_at))]
fn make_of(alloc: Global, is_element: bool, bytes: &[u8]) -> Result<(Item, &[u8]), ReadError>
    ensures { Gives (λ x. (x.0, x.1.now)) result (make_at (kind_of is_element) bytes.now) }
{
    let (serial, rest) = serial_of(bytes)?;
    let (parent, rest) = serial_of(rest)?;
    let (before, rest) = serial_of(rest)?;
    let (words, rest) = text_of(alloc, rest)?;
    let what = if is_element {
        What::Element(words)
    } else {
        What::Text(words)
    };
    Ok((
        Item::Change(Change::Make {
            serial,
            parent,
            before,
            what,
        }),
        rest,
    ))
}

#[tactic(auto, unfolding(crate::specs::Reading::set_text_at))]
fn set_text_of(alloc: Global, bytes: &[u8]) -> Result<(Item, &[u8]), ReadError>
    ensures { Gives (λ x. (x.0, x.1.now)) result (set_text_at bytes.now) }
{
    let (serial, rest) = serial_of(bytes)?;
    let (text, rest) = text_of(alloc, rest)?;
    Ok((Item::Change(Change::SetText { serial, text }), rest))
}

#[tactic(auto, unfolding(crate::specs::Reading::set_flag_at))]
fn set_flag_of(alloc: Global, bytes: &[u8]) -> Result<(Item, &[u8]), ReadError>
    ensures { Gives (λ x. (x.0, x.1.now)) result (set_flag_at bytes.now) }
{
    let (serial, rest) = serial_of(bytes)?;
    let (slot, rest) = slot_of(rest)?;
    let (name, rest) = text_of(alloc, rest)?;
    Ok((
        Item::Change(Change::SetAttr {
            serial,
            slot,
            name,
            attr: Attr::Flag,
        }),
        rest,
    ))
}

#[tactic(auto, unfolding(crate::specs::Reading::set_attr_at))]
fn set_attr_of(alloc: Global, bytes: &[u8]) -> Result<(Item, &[u8]), ReadError>
    ensures { Gives (λ x. (x.0, x.1.now)) result (set_attr_at bytes.now) }
{
    let (serial, rest) = serial_of(bytes)?;
    let (slot, rest) = slot_of(rest)?;
    let (name, rest) = text_of(alloc, rest)?;
    let (text, rest) = text_of(alloc, rest)?;
    Ok((
        Item::Change(Change::SetAttr {
            serial,
            slot,
            name,
            attr: Attr::Text(text),
        }),
        rest,
    ))
}

#[tactic(auto, unfolding(crate::specs::Reading::drop_attr_at))]
fn drop_attr_of(bytes: &[u8]) -> Result<(Item, &[u8]), ReadError>
    ensures { Gives (λ x. (x.0, x.1.now)) result (drop_attr_at bytes.now) }
{
    let (serial, rest) = serial_of(bytes)?;
    let (slot, rest) = slot_of(rest)?;
    Ok((Item::Change(Change::DropAttr { serial, slot }), rest))
}

#[tactic(auto, unfolding(crate::specs::Reading::untyped_at))]
fn untyped_of(bytes: &[u8]) -> Result<(Item, &[u8]), ReadError>
    ensures { Gives (λ x. (x.0, x.1.now)) result (untyped_at bytes.now) }
{
    let (serial, rest) = serial_of(bytes)?;
    Ok((
        Item::Change(Change::SetTyped {
            serial,
            typed: None,
        }),
        rest,
    ))
}

#[tactic(auto, unfolding(crate::specs::Reading::typed_text_at))]
fn typed_text_of(alloc: Global, bytes: &[u8]) -> Result<(Item, &[u8]), ReadError>
    ensures { Gives (λ x. (x.0, x.1.now)) result (typed_text_at bytes.now) }
{
    let (serial, rest) = serial_of(bytes)?;
    let (words, rest) = text_of(alloc, rest)?;
    let typed = Some(Typed::Text(words));
    Ok((Item::Change(Change::SetTyped { serial, typed }), rest))
}

#[tactic(auto, unfolding(crate::specs::Reading::typed_box_at))]
fn typed_box_of(checked: bool, bytes: &[u8]) -> Result<(Item, &[u8]), ReadError>
    ensures { Gives (λ x. (x.0, x.1.now)) result (typed_box_at checked bytes.now) }
{
    let (serial, rest) = serial_of(bytes)?;
    let typed = Some(Typed::Checked(checked));
    Ok((Item::Change(Change::SetTyped { serial, typed }), rest))
}

#[tactic(auto, unfolding(crate::specs::Reading::move_at))]
fn move_of(bytes: &[u8]) -> Result<(Item, &[u8]), ReadError>
    ensures { Gives (λ x. (x.0, x.1.now)) result (move_at bytes.now) }
{
    let (serial, rest) = serial_of(bytes)?;
    let (before, rest) = serial_of(rest)?;
    Ok((Item::Change(Change::Move { serial, before }), rest))
}

#[tactic(auto, unfolding(crate::specs::Reading::remove_at))]
fn remove_of(bytes: &[u8]) -> Result<(Item, &[u8]), ReadError>
    ensures { Gives (λ x. (x.0, x.1.now)) result (remove_at bytes.now) }
{
    let (serial, rest) = serial_of(bytes)?;
    Ok((Item::Change(Change::Remove { serial }), rest))
}
