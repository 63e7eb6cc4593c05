// Nodes are looked for.
ghost use Rattle.std.specs.Prelude.{◌≡◌, ◌∷◌, [], IsSome, IsSomeAnd, IfSome, ◌≤◌, length, drop};
ghost use Rattle.slab.specs.Slab.{get};
ghost use Rattle.sv_tokens.specs.Token.{first_key, identifies};
ghost use Rattle.sv_nodes.specs.Nodes.{walk, levels, is_anchor, first_shown};
ghost use Rattle.sv_nodes.specs.Sound.{IsSound};
ghost use Rattle.sv_nodes.specs.Cells.{kind_of, nodes_of, shows_id};

use crate::{Content, Entry, entry_at};
use slab::Slab;
use sv_tokens::shows_id;

/// The first element that shows that id, among a node and all below it in document order.
pub fn find_in(nodes: &Slab<Entry>, next: u64, key: u32, id: &str) -> Option<u32>
    requires sound { IsSound (nodes_of nodes.now.slots) next }
    requires live { IsSome (get nodes.now key) }
    ensures { result ≡ first_key (identifies id.now) (walk levels (nodes_of nodes.now.slots) (key ∷ [])) }
{
    let entry = entry_at(nodes, key as usize);
    if content_shows_id(&entry.content, id) {
        return Some(key);
    }
    for child in &entry.children {
        if let Some(found) = find_in(nodes, next, *child, id) {
            return Some(found);
        }
    }
    None
}

// Whether a node shows that id.
fn content_shows_id(content: &Content, id: &str) -> bool
    ensures { result ≡ shows_id id.now (kind_of content.now) }
{
    match content {
        Content::Element(element) => shows_id(&element.attributes, id),
        Content::Text(_) => false,
        Content::Anchor => false,
    }
}

/// The serial number of the first child of a node, from a place on, that is no anchor; 0 where there is none.
pub fn follower(nodes: &Slab<Entry>, parent: usize, at: usize) -> u64
    requires { IsSomeAnd (get nodes.now parent) (λ entry. at ≤ length entry.children.items) }
    ensures { IfSome (get nodes.now parent) (λ entry. result ≡ first_shown (nodes_of nodes.now.slots) (drop at entry.children.items)) }
{
    first_shown(nodes, &entry_at(nodes, parent).children[at..])
}

// The serial number of the first of these nodes that is no anchor; 0 where there is none.
fn first_shown(nodes: &Slab<Entry>, keys: &[u32]) -> u64
    ensures { result ≡ first_shown (nodes_of nodes.now.slots) keys.now }
{
    for key in keys {
        if let Some(entry) = nodes.get(*key as usize) {
            if !is_anchor(&entry.content) {
                return entry.serial;
            }
        }
    }
    0
}

// Whether the node is an anchor, which nobody sees.
fn is_anchor(content: &Content) -> bool
    ensures { result ≡ is_anchor (kind_of content.now) }
{
    match content {
        Content::Element(_) => false,
        Content::Text(_) => false,
        Content::Anchor => true,
    }
}
