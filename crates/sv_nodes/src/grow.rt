// A node is made.
ghost use Rattle.std.specs.Prelude.{◌≡◌, IfOk, OnOk, OnErr, IfSome, IsSomeAnd, ◌≤◌, length};
ghost use Rattle.slab.specs.Slab.{get, with_value, HasRoomFor};
ghost use Rattle.sv_nodes.specs.Nodes.{with_children};
ghost use Rattle.sv_nodes.specs.Sound.{IsAt};
ghost use Rattle.sv_nodes.specs.Steps.{IsStart, Grows, Adds};
ghost use Rattle.sv_nodes.specs.Made.{Makes};
ghost use Rattle.sv_nodes.specs.Cells.{cell_of, cells_of, nodes_of, kind_of};
ghost use Rattle.sv_nodes.specs.declared.entry.Entry.{Entry};

use crate::children::{insert_child, place_of};
use crate::{Content, Entry, entry_at, follower};
use slab::Slab;
use std::alloc::Global;
use sv_base::NoMemory;

// The place before a child of a node, or the end of its children.
pub(crate) fn place_in(nodes: &Slab<Entry>, parent: usize, before: Option<u32>) -> usize
    requires { IsSomeAnd (get nodes.now parent) (λ entry. IsAt before entry.children.items) }
    ensures { IfSome (get nodes.now parent) (λ entry. IsStart before result entry.children.items) }
{
    place_of(&entry_at(nodes, parent).children, before)
}

/// A node that was made: its key, its parent's serial number, and the serial number of the next sibling that
/// is no anchor, or 0.
#[derive(Drop)]
pub struct Made {
    pub key: u32,
    pub above: u64,
    pub follower: u64,
}

/// Makes a node, a child of its parent before another child or at the end.
pub fn make_node(
    alloc: Global,
    nodes: &mut Slab<Entry>,
    parent: u32,
    before: Option<u32>,
    serial: u64,
    content: Content,
) -> Result<Made, NoMemory>
    requires { IsSomeAnd (get nodes.old parent) (λ entry. IsAt before entry.children.items) }
    ensures made { IfOk result (λ made. Makes (nodes_of nodes.old.slots) (nodes_of nodes.new.slots) parent before serial (kind_of content) made) }
    ensures kept { OnErr result (cells_of nodes.new.slots ≡ cells_of nodes.old.slots) }
{
    let at = place_in(nodes, parent as usize, before);
    let above = entry_at(nodes, parent as usize).serial;
    let follower = follower(nodes, parent as usize, at);
    let key = add_node(alloc, nodes, parent, at, serial, content)?;
    Ok(Made {
        key,
        above,
        follower,
    })
}

// Makes a node, a child of its parent at a place, and gives its key.
fn add_node(
    alloc: Global,
    nodes: &mut Slab<Entry>,
    parent: u32,
    at: usize,
    serial: u64,
    content: Content,
) -> Result<u32, NoMemory>
    requires { IsSomeAnd (get nodes.old parent) (λ entry. at ≤ length entry.children.items) }
    ensures made { IfOk result (λ key. Adds (nodes_of nodes.old.slots) (nodes_of nodes.new.slots) parent key at serial (kind_of content)) }
    ensures kept { OnErr result (cells_of nodes.new.slots ≡ cells_of nodes.old.slots) }
{
    nodes.reserve(1)?;
    let key = nodes.vacant_key();
    let Ok(name) = u32::try_from(key) else {
        return Err(NoMemory);
    };
    let above = entry_at(nodes, parent as usize).serial;
    add_child(nodes, parent as usize, at, name)?;
    nodes.insert_reserved(Entry {
        serial,
        parent,
        above,
        number: None,
        content,
        children: Vec::new(alloc),
    });
    Ok(name)
}

// Adds a child to a node.
fn add_child(nodes: &mut Slab<Entry>, parent: usize, at: usize, child: u32) -> Result<(), NoMemory>
    requires { IsSomeAnd (get nodes.old parent) (λ entry. at ≤ length entry.children.items) }
    ensures ok { OnOk result (IfSome (get nodes.old parent) (λ entry. (grown : Entry) × (nodes.new ≡ with_value nodes.old parent grown)
        × (cell_of grown ≡ with_children (cell_of entry) grown.children.items)
        × Grows child at entry.children.items grown.children.items)) }
    ensures err { OnErr result (cells_of nodes.new.slots ≡ cells_of nodes.old.slots) }
    ensures key { nodes.new.vacant_key ≡ nodes.old.vacant_key }
    ensures room { HasRoomFor nodes.old 1 → HasRoomFor nodes.new 1 }
{
    match nodes.get_mut(parent) {
        Some(entry) => {
            insert_child(&mut entry.children, at, child)?;
            Ok(())
        }
        None => Ok(()),
    }
}
