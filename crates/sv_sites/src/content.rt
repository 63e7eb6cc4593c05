// The content of a component's tag.
ghost use Rattle.std.specs.Prelude.{◌≡◌, ◌++◌, [], false, map, option_map, is_some, OnOk};
ghost use Rattle.sv_sites.specs.Sites as spec;

use crate::attributes::slot_of;
use crate::site::{Site, Sites};
use crate::texts::is_blank;
use std::alloc::Global;
use sv_ast::Markup;
use sv_base::{Name, Names, NoMemory, Span, Text};

/// Notes the content of a component's tag for slots.
pub(crate) fn add_contents(
    alloc: Global,
    sites: &mut Sites,
    of: Name,
    children: &[Markup],
) -> Result<(), NoMemory>
    ensures { OnOk result (sites.new ≡ sites.old ++ spec.contents of false [] (map (λ n. n.child) (map spec.node children.now))) }
{
    let mut begun = false;
    let mut given = Names::empty(alloc);
    for child in children {
        add_given(alloc, sites, &mut given, of, begun, child)?;
        begun = begins(begun, child);
    }
    Ok(())
}

// Notes a node where it gives content to a slot.
fn add_given(
    alloc: Global,
    sites: &mut Sites,
    given: &mut Names,
    of: Name,
    begun: bool,
    node: &Markup,
) -> Result<(), NoMemory>
    ensures sites { OnOk result (sites.new ≡ sites.old ++ spec.content_site of given.old (spec.node node.now).child.place (spec.given_slot begun (spec.node node.now).child)) }
    ensures given { OnOk result (given.new ≡ spec.with_slot given.old (spec.given_slot begun (spec.node node.now).child)) }
{
    match given_slot(begun, node) {
        Some(slot) => add_content(alloc, sites, given, of, slot, span_of(node)),
        None => Ok(()),
    }
}

// Notes content for a slot.
fn add_content(
    alloc: Global,
    sites: &mut Sites,
    given: &mut Names,
    of: Name,
    slot: &str,
    at: Span,
) -> Result<(), NoMemory>
    ensures sites { OnOk result (sites.new ≡ sites.old ++ spec.content_site of given.old at (Some slot.now)) }
    ensures given { OnOk result (given.new ≡ spec.with_slot given.old (Some slot.now)) }
{
    let again = is_given(given, slot);
    given.intern(slot)?;
    sites.push(Site::Content {
        of,
        slot: Text::new(alloc, slot)?,
        again,
        at,
    })
}

/// Whether a slot is one of some.
#[tactic(auto, using(crate::proofs::Numbered::is_found))]
pub fn is_given(given: &Names, slot: &str) -> bool
    ensures { result ≡ spec.is_given given.now slot.now }
{
    given.find(slot).is_some()
}

// The slot that a node gives content to.
fn given_slot(begun: bool, node: &Markup) -> Option<&str>
    ensures { option_map (λ slot. slot.now) result ≡ spec.given_slot begun (spec.node node.now).child }
{
    if is_part(node) {
        return part_slot(node);
    }
    if is_white(node) || begun {
        return None;
    }
    Some("")
}

// Whether the default content has begun behind a node.
fn begins(begun: bool, node: &Markup) -> bool
    ensures { result ≡ spec.begins begun (spec.node node.now).child }
{
    begun || !(is_part(node) || is_white(node))
}

/// Whether a node has a `slot` attribute, so that it is a part of its own of a component's content.
pub(crate) fn is_part(node: &Markup) -> bool
    ensures { result ≡ is_some (spec.node node.now).child.slot }
{
    part_slot(node).is_some()
}

fn part_slot(node: &Markup) -> Option<&str>
    ensures { option_map (λ slot. slot.now) result ≡ (spec.node node.now).child.slot }
{
    match node {
        Markup::Element { attrs, .. } | Markup::Comp { attrs, .. } | Markup::Slot { attrs, .. } => {
            slot_of(attrs.as_slice())
        }
        Markup::Text { .. }
        | Markup::Show { .. }
        | Markup::If { .. }
        | Markup::Each { .. }
        | Markup::Key { .. } => None,
    }
}

// Whether a node is white space alone.
fn is_white(node: &Markup) -> bool
    ensures { result ≡ (spec.node node.now).child.blank }
{
    match node {
        Markup::Text { text, .. } => is_blank(text.as_str()),
        Markup::Show { .. }
        | Markup::Element { .. }
        | Markup::Comp { .. }
        | Markup::Slot { .. }
        | Markup::If { .. }
        | Markup::Each { .. }
        | Markup::Key { .. } => false,
    }
}

fn span_of(node: &Markup) -> Span
    ensures { result ≡ (spec.node node.now).child.place }
{
    match node {
        Markup::Text { span, .. }
        | Markup::Show { span, .. }
        | Markup::Element { span, .. }
        | Markup::Comp { span, .. }
        | Markup::Slot { span, .. }
        | Markup::If { span, .. }
        | Markup::Each { span, .. }
        | Markup::Key { span, .. } => *span,
    }
}
