// What a node shows of its own is rewritten.
ghost use Rattle.std.specs.Prelude.{◌≡◌, ◌<◌, ◌≤◌, ℕ, Option, IsSome, IsTrue, OnOk, OnErr, nat_lt, nat_eq, not, length, slice_index_or};
ghost use Rattle.std.specs.List.{prefix_len};
ghost use Rattle.slab.specs.Slab.{get};
ghost use Rattle.sv_tokens.specs.declared.element.Attribute.{Attribute};
ghost use Rattle.sv_tokens.specs.Edit.{put, drop_slot, with_attribute, without_slot, with_typed};
ghost use Rattle.sv_nodes.specs.Nodes.{retext, reshape, with_kind};
ghost use Rattle.sv_nodes.specs.Steps.{Rewrites};
ghost use Rattle.sv_nodes.specs.Cells.{kind_of, cells_of, nodes_of};

use crate::{Content, Entry};
use slab::Slab;
use sv_base::{NoMemory, Text};
use sv_tokens::{Attribute, Typed};

/// Writes the text of a text node.
pub fn write_text(nodes: &mut Slab<Entry>, key: usize, text: Text)
    requires { IsSome (get nodes.old key) }
    ensures { Rewrites (nodes_of nodes.old.slots) (nodes_of nodes.new.slots) key (with_kind (retext text)) }
{
    if let Some(entry) = nodes.get_mut(key) {
        set_content(&mut entry.content, text);
    }
}

fn set_content(content: &mut Content, text: Text)
    ensures { kind_of content.new ≡ retext text (kind_of content.old) }
{
    if let Content::Text(was) = content {
        *was = text;
    }
}

/// Writes what was typed over an element.
pub fn write_typed(nodes: &mut Slab<Entry>, key: usize, typed: Option<Typed>)
    requires { IsSome (get nodes.old key) }
    ensures { Rewrites (nodes_of nodes.old.slots) (nodes_of nodes.new.slots) key (with_kind (reshape (with_typed typed))) }
{
    if let Some(entry) = nodes.get_mut(key) {
        type_content(&mut entry.content, typed);
    }
}

fn type_content(content: &mut Content, typed: Option<Typed>)
    ensures { kind_of content.new ≡ reshape (with_typed typed) (kind_of content.old) }
{
    if let Content::Element(element) = content {
        element.typed = typed;
    }
}

/// Writes an attribute of an element, in the place of the one at its slot.
pub fn write_attribute(
    nodes: &mut Slab<Entry>,
    key: usize,
    attribute: Attribute,
) -> Result<(), NoMemory>
    requires { IsSome (get nodes.old key) }
    ensures ok { OnOk result (Rewrites (nodes_of nodes.old.slots) (nodes_of nodes.new.slots) key (with_kind (reshape (with_attribute attribute)))) }
    ensures err { OnErr result (cells_of nodes.new.slots ≡ cells_of nodes.old.slots) }
{
    if let Some(entry) = nodes.get_mut(key) {
        put_content(&mut entry.content, attribute)?;
    }
    Ok(())
}

fn put_content(content: &mut Content, attribute: Attribute) -> Result<(), NoMemory>
    ensures ok { OnOk result (kind_of content.new ≡ reshape (with_attribute attribute) (kind_of content.old)) }
    ensures err { OnErr result (kind_of content.new ≡ kind_of content.old) }
{
    if let Content::Element(element) = content {
        put_attribute(&mut element.attributes, attribute)?;
    }
    Ok(())
}

/// Puts an attribute at its slot, where it takes the place of one that is there. `NoMemory` comes only where memory runs out.
pub fn put_attribute(attributes: &mut Vec<Attribute>, attribute: Attribute) -> Result<(), NoMemory>
    ensures ok { OnOk result (attributes.new.items ≡ put attribute attributes.old.items) }
    ensures err { OnErr result (attributes.new.items ≡ attributes.old.items) }
{
    let at = slots_below(attributes, attribute.slot);
    if has_slot(attributes, at, attribute.slot) {
        attributes[at] = attribute;
        return Ok(());
    }
    attributes.insert(at, attribute)?;
    Ok(())
}

// Whether an attribute at that place has the slot.
pub(crate) fn has_slot(attributes: &[Attribute], at: usize, slot: u16) -> bool
    ensures inside { IsTrue result → at < length attributes.now }
    ensures same { (d : Attribute) → IsTrue result → (slice_index_or attributes.now at d).slot ≡ slot }
    ensures no { (d : Attribute) → at < length attributes.now → (slice_index_or attributes.now at d).slot ≡ slot → IsTrue result }
{
    at < attributes.len() && attributes[at].slot == slot
}

// How many attributes stand before a slot.
pub(crate) fn slots_below(attributes: &[Attribute], slot: u16) -> usize
    ensures count { result ≡ prefix_len (λ a. nat_lt a.slot slot) attributes.now }
    ensures bound { result ≤ length attributes.now }
{
    attributes.iter().take_while(|a| a.slot < slot).count()
}

/// Takes the attribute at a slot from an element.
pub fn write_dropped(nodes: &mut Slab<Entry>, key: usize, slot: u16)
    requires { IsSome (get nodes.old key) }
    ensures { Rewrites (nodes_of nodes.old.slots) (nodes_of nodes.new.slots) key (with_kind (reshape (without_slot slot))) }
{
    if let Some(entry) = nodes.get_mut(key) {
        drop_content(&mut entry.content, slot);
    }
}

fn drop_content(content: &mut Content, slot: u16)
    ensures { kind_of content.new ≡ reshape (without_slot slot) (kind_of content.old) }
{
    if let Content::Element(element) = content {
        drop_attribute(&mut element.attributes, slot);
    }
}

/// Takes the first attribute at a slot away, if there is one.
pub fn drop_attribute(attributes: &mut Vec<Attribute>, slot: u16)
    ensures { attributes.new.items ≡ drop_slot slot attributes.old.items }
{
    let at = place_of_slot(attributes, slot);
    if at < attributes.len() {
        attributes.remove(at);
    }
}

// Where the attribute at a slot stands.
pub(crate) fn place_of_slot(attributes: &[Attribute], slot: u16) -> usize
    ensures count { result ≡ prefix_len (λ a. not (nat_eq slot a.slot)) attributes.now }
    ensures bound { result ≤ length attributes.now }
{
    attributes.iter().take_while(|a| slot != a.slot).count()
}
