// Whether a node shows something already.
ghost use Rattle.std.specs.Prelude.{◌≡◌, ◌↔◌, IsTrue};
ghost use Rattle.sv_tokens.specs.declared.element.Attribute.{Attribute};
ghost use Rattle.sv_tokens.specs.Edit.{put, drop_slot, with_attribute, without_slot, with_typed};
ghost use Rattle.sv_nodes.specs.Nodes.{retext, reshape};
ghost use Rattle.sv_nodes.specs.Cells.{kind_of};

use crate::Content;
use crate::edit::{has_slot, place_of_slot, slots_below};
use sv_base::Text;
use sv_tokens::{Attr, Attribute, Typed};

/// Whether that text would change nothing of a node.
pub fn has_text(content: &Content, text: &Text) -> bool
    ensures { IsTrue result ↔ (retext text.now (kind_of content.now) ≡ kind_of content.now) }
{
    match content {
        Content::Element(_) => true,
        Content::Text(shown) => shown.as_str() == text.as_str(),
        Content::Anchor => true,
    }
}

/// Whether that attribute would change nothing of a node.
pub fn has_attribute(content: &Content, slot: u16, name: &Text, attr: &Attr) -> bool
    ensures { IsTrue result ↔ (reshape (with_attribute (record { slot = slot; name = name.now; value = attr.now })) (kind_of content.now) ≡ kind_of content.now) }
{
    match content {
        Content::Element(element) => holds(&element.attributes, slot, name, attr),
        Content::Text(_) => true,
        Content::Anchor => true,
    }
}

fn holds(attributes: &[Attribute], slot: u16, name: &Text, attr: &Attr) -> bool
    ensures { IsTrue result ↔ (put (record { slot = slot; name = name.now; value = attr.now }) attributes.now ≡ attributes.now) }
{
    let at = slots_below(attributes, slot);
    has_slot(attributes, at, slot) && shows(&attributes[at], name, attr)
}

fn shows(attribute: &Attribute, name: &Text, attr: &Attr) -> bool
    ensures { IsTrue result ↔ (attribute.now ≡ record { slot = attribute.now.slot; name = name.now; value = attr.now }) }
{
    attribute.name.as_str() == name.as_str() && attribute.value.is(attr)
}

/// Whether a node has no attribute at that slot.
pub fn has_no_slot(content: &Content, slot: u16) -> bool
    ensures { IsTrue result ↔ (reshape (without_slot slot) (kind_of content.now) ≡ kind_of content.now) }
{
    match content {
        Content::Element(element) => lacks_slot(&element.attributes, slot),
        Content::Text(_) => true,
        Content::Anchor => true,
    }
}

fn lacks_slot(attributes: &[Attribute], slot: u16) -> bool
    ensures { IsTrue result ↔ (drop_slot slot attributes.now ≡ attributes.now) }
{
    place_of_slot(attributes, slot) == attributes.len()
}

/// Whether that typed state would change nothing of a node.
pub fn has_typed(content: &Content, typed: &Option<Typed>) -> bool
    ensures { IsTrue result ↔ (reshape (with_typed typed.now) (kind_of content.now) ≡ kind_of content.now) }
{
    match content {
        Content::Element(element) => is_typed(&element.typed, typed),
        Content::Text(_) => true,
        Content::Anchor => true,
    }
}

fn is_typed(shown: &Option<Typed>, typed: &Option<Typed>) -> bool
    ensures { IsTrue result ↔ (typed.now ≡ shown.now) }
{
    match (shown, typed) {
        (None, None) => true,
        (Some(shown), Some(typed)) => typed.is(shown),
        _ => false,
    }
}
