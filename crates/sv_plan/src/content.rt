// The content that a tag gives to the slots of its component.
ghost use Rattle.std.specs.Prelude.{◌≡◌, ◌&&◌, option_map};
ghost use Rattle.sv_code.specs.declared.fragments.Frag.{out-Frag};
ghost use Rattle.sv_plan.specs.Content as spec;

use std::slice;
use sv_code::{Frag, LetName, Program, Tag};

/// Fragments, and the names that they have for slot props.
#[derive(Clone, Copy)]
pub struct Content<'a> {
    pub lets: &'a [LetName],
    pub frags: &'a [Frag],
}

fn is_named(frag: &Frag) -> bool
    ensures { result ≡ spec.is_named (out-Frag frag.now) }
{
    matches!(frag, Frag::Named { .. })
}

// A fragment that goes to the slot of a name.
fn named_as<'a>(name: &str, frag: &'a Frag) -> Option<Content<'a>>
    ensures { option_map spec.seen result ≡ spec.named_as name.now (out-Frag frag.now) }
{
    match frag {
        Frag::Named { slot, lets, node } => {
            if slot.as_str() == name {
                Some(Content {
                    lets: lets.as_slice(),
                    frags: slice::from_ref(node.get()),
                })
            } else {
                None
            }
        }
        _ => None,
    }
}

// The first that goes to the slot of a name.
fn content_named<'a>(name: &str, frags: &'a [Frag]) -> Option<Content<'a>>
    ensures { option_map spec.seen result ≡ spec.content_named name.now frags.now }
{
    for frag in frags {
        if let Some(content) = named_as(name, frag) {
            return Some(content);
        }
    }
    None
}

// Whether some goes to the default slot.
fn has_default(frags: &[Frag]) -> bool
    ensures { result ≡ spec.has_default frags.now }
{
    for frag in frags {
        if !is_named(frag) {
            return true;
        }
    }
    false
}

// What a tag gives to the slot of a name.
fn content_of<'a>(name: &str, tag: &'a Tag) -> Option<Content<'a>>
    ensures { option_map spec.seen result ≡ spec.content_of name.now tag.now }
{
    let frags = tag.content.as_slice();
    if name.is_empty() && has_default(frags) {
        return Some(Content {
            lets: tag.lets.as_slice(),
            frags,
        });
    }
    content_named(name, frags)
}

fn own_tag(tags: &[Option<u32>]) -> Option<u32>
    ensures { result ≡ spec.own_tag tags.now }
{
    match tags {
        [] => None,
        [tag, ..] => *tag,
    }
}

/// The tags of the levels of the owner's view.
pub fn outer_tags(tags: &[Option<u32>]) -> &[Option<u32>]
    ensures { result.now ≡ spec.outer_tags tags.now }
{
    match tags {
        [] => &[],
        [_, outer @ ..] => outer,
    }
}

/// What is given to the slot of a name by the tag with which an instance stands in its owner's markup.
pub fn content_at<'a>(program: &'a Program, tags: &[Option<u32>], name: &str) -> Option<Content<'a>>
    ensures { option_map spec.seen result ≡ spec.content_at program.now tags.now name.now }
{
    let number = own_tag(tags)?;
    let found = program.tags.as_slice();
    let tag = found.get(number as usize)?;
    content_of(name, tag)
}
