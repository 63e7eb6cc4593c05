// A node goes elsewhere among the children of its parent.
ghost use Rattle.std.specs.Prelude.{◌≡◌, ◌≢◌, ◌<◌, Some, IfSome, IsSomeAnd};
ghost use Rattle.std.specs.List.{remove};
ghost use Rattle.slab.specs.Slab.{get, with_value};
ghost use Rattle.sv_nodes.specs.Nodes.{with_children};
ghost use Rattle.sv_nodes.specs.Sound.{IsAmong, IsAt};
ghost use Rattle.sv_nodes.specs.Steps.{IsStart, Reorders};
ghost use Rattle.sv_nodes.specs.Moves.{Moves};
ghost use Rattle.sv_nodes.specs.Cells.{cell_of, nodes_of};
ghost use Rattle.sv_nodes.specs.declared.entry.Entry.{Entry};

use crate::children::shift_child;
use crate::grow::place_in;
use crate::{Entry, entry_at, follower};
use slab::Slab;

/// The serial numbers of the next sibling that is no anchor, before a node was moved and after; 0 where there
/// is none.
#[derive(Clone, Copy)]
pub struct Followers {
    pub earlier: u64,
    pub later: u64,
}

/// Moves a node, with all below it, before another child of its parent or to the end.
pub fn move_node(nodes: &mut Slab<Entry>, key: u32, before: Option<u32>) -> Followers
    requires child { IsSomeAnd (get nodes.old key) (λ entry. IsSomeAnd (get nodes.old entry.parent) (λ above. IsAmong key above.children.items × IsAt before above.children.items)) }
    requires other { before ≢ Some key }
    ensures { Moves (nodes_of nodes.old.slots) (nodes_of nodes.new.slots) key before result }
{
    let parent = entry_at(nodes, key as usize).parent as usize;
    let from = place_in(nodes, parent, Some(key));
    let earlier = follower(nodes, parent, from + 1);
    let to = shift_in(nodes, parent, key, from, before);
    let later = follower(nodes, parent, to + 1);
    Followers { earlier, later }
}

// Puts the child at a place among a node's children before another one, or at the end, and says where it
// stands now.
fn shift_in(
    nodes: &mut Slab<Entry>,
    parent: usize,
    child: u32,
    from: usize,
    before: Option<u32>,
) -> usize
    requires { IsSomeAnd (get nodes.old parent) (λ entry. IsStart (Some child) from entry.children.items × IsAt before (remove entry.children.items from)) }
    ensures shifted { IfSome (get nodes.old parent) (λ entry. (shifted : Entry) × (nodes.new ≡ with_value nodes.old parent shifted)
        × (cell_of shifted ≡ with_children (cell_of entry) shifted.children.items)
        × Reorders child from result before entry.children.items shifted.children.items) }
    ensures bound { result < usize.MAX }
{
    match nodes.get_mut(parent) {
        Some(entry) => shift_child(&mut entry.children, child, from, before),
        None => unreachable!(),
    }
}
