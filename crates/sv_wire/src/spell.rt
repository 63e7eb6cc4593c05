// How items are spelled.
ghost use Rattle.std.specs.Prelude.{◌≡◌, ◌≤◌, ◌++◌, ◌∷◌, [], length, OnOk, OnErr};
ghost use Rattle.sv_tokens.specs.declared.change.Change.TheVariants.{Make as make, SetAttr as set_attr, SetTyped as set_typed};
ghost use Rattle.sv_wire.specs.Spelling as spec;
ghost use Rattle.sv_wire.specs.Spelling.{head, spelled, IsShort, IsShortItem};

use crate::item::{Item, LONGEST_TEXT};
use crate::whole::HEAD;
use sv_base::{NoMemory, Text};
use sv_tokens::{Attr, Change, Typed, What};

/// Puts what a stream begins with at the end of the bytes, which stay as they were where memory is wanting.
pub fn put_head(to: &mut Vec<u8>) -> Result<(), NoMemory>
    ensures ok { OnOk result (to.new.items ≡ to.old.items ++ head) }
    ensures err { OnErr result (to.new.items ≡ to.old.items) }
{
    to.extend_from_slice(&HEAD)?;
    Ok(())
}

/// Puts the spelling of an item at the end of the bytes, which stay as they were where memory is wanting. No text of the item is
/// longer than `LONGEST_TEXT`.
pub fn put(item: &Item, to: &mut Vec<u8>) -> Result<(), NoMemory>
    requires { IsShortItem item.now }
    ensures ok { OnOk result (to.new.items ≡ to.old.items ++ spelled item.now) }
    ensures err { OnErr result (to.new.items ≡ to.old.items) }
{
    let mut own = Vec::new(*to.allocator());
    put_item(&mut own, item)?;
    to.extend_from_slice(&own)?;
    Ok(())
}

fn put_item(to: &mut Vec<u8>, item: &Item) -> Result<(), NoMemory>
    requires { IsShortItem item.now }
    ensures { OnOk result (to.new.items ≡ to.old.items ++ spelled item.now) }
{
    match item {
        Item::Change(change) => put_change(to, change),
        Item::Turn { target: true } => put_form(to, 13),
        Item::Turn { target: false } => put_form(to, 14),
        Item::End => put_form(to, 15),
    }
}

fn put_change(to: &mut Vec<u8>, change: &Change) -> Result<(), NoMemory>
    requires { IsShort change.now }
    ensures { OnOk result (to.new.items ≡ to.old.items ++ spec.change change.now) }
{
    match change {
        Change::Make {
            serial,
            parent,
            before,
            what,
        } => put_make(to, *serial, *parent, *before, what),
        Change::SetText { serial, text } => put_words(to, 3, *serial, text),
        Change::SetAttr {
            serial,
            slot,
            name,
            attr,
        } => put_attribute(to, *serial, *slot, name, attr),
        Change::DropAttr { serial, slot } => put_at_slot(to, 6, *serial, *slot),
        Change::SetTyped { serial, typed } => put_typed(to, *serial, typed),
        Change::Move { serial, before } => put_moved(to, *serial, *before),
        Change::Remove { serial } => put_node(to, 12, *serial),
    }
}

// A new node.
fn put_make(
    to: &mut Vec<u8>,
    serial: u64,
    parent: u64,
    before: u64,
    what: &What,
) -> Result<(), NoMemory>
    requires { IsShort (make serial parent before what.now) }
    ensures { OnOk result (to.new.items ≡ to.old.items ++ spec.change (make serial parent before what.now)) }
{
    match what {
        What::Element(name) => {
            put_place(to, 1, serial, parent, before)?;
            put_text(to, name)
        }
        What::Text(words) => {
            put_place(to, 2, serial, parent, before)?;
            put_text(to, words)
        }
    }
}

// The byte of a form, a node, and its place.
fn put_place(
    to: &mut Vec<u8>,
    form: u8,
    node: u64,
    parent: u64,
    before: u64,
) -> Result<(), NoMemory>
    ensures { OnOk result (to.new.items ≡ to.old.items ++ form ∷ (spec.serial node ++ (spec.serial parent ++ spec.serial before))) }
{
    put_node(to, form, node)?;
    put_serial(to, parent)?;
    put_serial(to, before)
}

// The byte of a form, a node, and a text.
fn put_words(to: &mut Vec<u8>, form: u8, node: u64, words: &Text) -> Result<(), NoMemory>
    requires { length words.now ≤ LONGEST_TEXT }
    ensures { OnOk result (to.new.items ≡ to.old.items ++ form ∷ (spec.serial node ++ spec.text words.now)) }
{
    put_node(to, form, node)?;
    put_text(to, words)
}

// An attribute.
fn put_attribute(
    to: &mut Vec<u8>,
    serial: u64,
    slot: u16,
    name: &Text,
    attr: &Attr,
) -> Result<(), NoMemory>
    requires { IsShort (set_attr serial slot name.now attr.now) }
    ensures { OnOk result (to.new.items ≡ to.old.items ++ spec.change (set_attr serial slot name.now attr.now)) }
{
    match attr {
        Attr::Flag => {
            put_at_slot(to, 4, serial, slot)?;
            put_text(to, name)
        }
        Attr::Text(words) => {
            put_at_slot(to, 5, serial, slot)?;
            put_text(to, name)?;
            put_text(to, words)
        }
    }
}

// The byte of a form, a node, and a slot.
fn put_at_slot(to: &mut Vec<u8>, form: u8, node: u64, at: u16) -> Result<(), NoMemory>
    ensures { OnOk result (to.new.items ≡ to.old.items ++ form ∷ (spec.serial node ++ spec.slot at)) }
{
    put_node(to, form, node)?;
    put_slot(to, at)
}

// A typed state, or none.
fn put_typed(to: &mut Vec<u8>, serial: u64, typed: &Option<Typed>) -> Result<(), NoMemory>
    requires { IsShort (set_typed serial typed.now) }
    ensures { OnOk result (to.new.items ≡ to.old.items ++ spec.change (set_typed serial typed.now)) }
{
    match typed {
        None => put_node(to, 7, serial),
        Some(Typed::Text(words)) => put_words(to, 8, serial, words),
        Some(Typed::Checked(false)) => put_node(to, 9, serial),
        Some(Typed::Checked(true)) => put_node(to, 10, serial),
    }
}

// The byte of a form, a node, and a sibling.
fn put_moved(to: &mut Vec<u8>, node: u64, before: u64) -> Result<(), NoMemory>
    ensures { OnOk result (to.new.items ≡ to.old.items ++ 11 ∷ (spec.serial node ++ spec.serial before)) }
{
    put_node(to, 11, node)?;
    put_serial(to, before)
}

// The byte of a form, and a node.
fn put_node(to: &mut Vec<u8>, form: u8, node: u64) -> Result<(), NoMemory>
    ensures { OnOk result (to.new.items ≡ to.old.items ++ form ∷ spec.serial node) }
{
    put_form(to, form)?;
    put_serial(to, node)
}

fn put_form(to: &mut Vec<u8>, form: u8) -> Result<(), NoMemory>
    ensures { OnOk result (to.new.items ≡ to.old.items ++ form ∷ []) }
{
    to.push(form)?;
    Ok(())
}

#[tactic(auto, unfolding(crate::specs::Spelling::serial))]
fn put_serial(to: &mut Vec<u8>, node: u64) -> Result<(), NoMemory>
    ensures { OnOk result (to.new.items ≡ to.old.items ++ spec.serial node) }
{
    to.extend_from_slice(&node.to_be_bytes())?;
    Ok(())
}

#[tactic(auto, unfolding(crate::specs::Spelling::slot))]
fn put_slot(to: &mut Vec<u8>, at: u16) -> Result<(), NoMemory>
    ensures { OnOk result (to.new.items ≡ to.old.items ++ spec.slot at) }
{
    to.extend_from_slice(&at.to_be_bytes())?;
    Ok(())
}

#[tactic(auto, unfolding(crate::specs::Spelling::text))]
fn put_text(to: &mut Vec<u8>, words: &Text) -> Result<(), NoMemory>
    requires { length words.now ≤ LONGEST_TEXT }
    ensures { OnOk result (to.new.items ≡ to.old.items ++ spec.text words.now) }
{
    let bytes = words.as_str().as_bytes();
    to.extend_from_slice(&(bytes.len() as u32).to_be_bytes())?;
    to.extend_from_slice(bytes)?;
    Ok(())
}
