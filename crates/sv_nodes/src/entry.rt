// What is kept of a node.
ghost use Rattle.std.specs.Prelude.{◌≡◌, IsSome, Some};
ghost use Rattle.slab.specs.Slab.{get};

use slab::Slab;
use sv_base::Text;
use sv_tokens::{Attribute, Typed};

/// What an element shows of its own: its attributes stand by slot.
#[derive(Drop)]
pub struct Element {
    pub name: Text,
    pub attributes: Vec<Attribute>,
    pub typed: Option<Typed>,
}

/// What a node is. An anchor marks a place and shows nothing.
#[derive(Drop)]
pub enum Content {
    Element(Element),
    Text(Text),
    Anchor,
}

/// A node: its serial number, its parent's key and serial number, the number that it is printed with, if it
/// has one, and the keys of its children in document order.
#[derive(Drop)]
pub struct Entry {
    pub serial: u64,
    pub parent: u32,
    pub above: u64,
    pub number: Option<u64>,
    pub content: Content,
    pub children: Vec<u32>,
}

/// The node at a key where one is.
pub fn entry_at(nodes: &Slab<Entry>, key: usize) -> &Entry
    requires { IsSome (get nodes.now key) }
    ensures { get nodes.now key ≡ Some result.now }
{
    match nodes.get(key) {
        Some(entry) => entry,
        None => unreachable!(),
    }
}
