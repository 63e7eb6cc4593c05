// A node is taken away.
ghost use Rattle.std.specs.Prelude.{◌≡◌, ◌≢◌, [], IfSome, IsSome, IsSomeAnd};
ghost use Rattle.slab.specs.Slab.{get, with_value};
ghost use Rattle.sv_tokens.specs.Counting.{Has};
ghost use Rattle.sv_tokens.specs.Token.{begins};
ghost use Rattle.sv_tokens.specs.Edit.{Removed};
ghost use Rattle.sv_nodes.specs.Nodes.{with_children, tokens_of};
ghost use Rattle.sv_nodes.specs.Sound.{IsAmong, IsSound};
ghost use Rattle.sv_nodes.specs.Steps.{IsLast, Cuts, Drops, Keeps};
ghost use Rattle.sv_nodes.specs.Cells.{cell_of, nodes_of};
ghost use Rattle.sv_nodes.specs.declared.entry.Entry.{Entry};

use crate::children::cut_child;
use crate::{Entry, entry_at};
use slab::Slab;

/// Takes away a node, which is not the page, and all below it.
pub fn remove_in(nodes: &mut Slab<Entry>, next: u64, key: u32)
    requires { IsSound (nodes_of nodes.old.slots) next × Has (begins key) (tokens_of (nodes_of nodes.old.slots)) × (key ≢ 0) }
    ensures sound { IsSound (nodes_of nodes.new.slots) next }
    ensures tokens { Removed (tokens_of (nodes_of nodes.old.slots)) (tokens_of (nodes_of nodes.new.slots)) key }
    ensures kept { Keeps (nodes_of nodes.old.slots) (nodes_of nodes.new.slots) }
{
    while let Some(child) = last_child(nodes, key) {
        remove_in(nodes, next, child);
    }
    drop_bare(nodes, next, key);
}

// The last child of a node.
fn last_child(nodes: &Slab<Entry>, key: u32) -> Option<u32>
    requires { IsSome (get nodes.now key) }
    ensures { IfSome (get nodes.now key) (λ entry. IsLast entry.children.items result) }
{
    entry_at(nodes, key as usize).children.last().copied()
}

// Takes away a node with no children.
fn drop_bare(nodes: &mut Slab<Entry>, next: u64, key: u32)
    requires sound { IsSound (nodes_of nodes.old.slots) next }
    requires bare { IsSomeAnd (get nodes.old key) (λ entry. entry.children.items ≡ []) }
    requires page { key ≢ 0 }
    ensures { Drops (nodes_of nodes.old.slots) (nodes_of nodes.new.slots) key }
{
    let parent = entry_at(nodes, key as usize).parent;
    drop_child(nodes, parent as usize, key);
    drop(nodes.try_remove(key as usize));
}

// Takes a child from a node.
fn drop_child(nodes: &mut Slab<Entry>, parent: usize, child: u32)
    requires { IsSomeAnd (get nodes.old parent) (λ entry. IsAmong child entry.children.items) }
    ensures { IfSome (get nodes.old parent) (λ entry. (cut : Entry) × (nodes.new ≡ with_value nodes.old parent cut)
        × (cell_of cut ≡ with_children (cell_of entry) cut.children.items)
        × Cuts child entry.children.items cut.children.items) }
{
    if let Some(entry) = nodes.get_mut(parent) {
        cut_child(&mut entry.children, child);
    }
}
