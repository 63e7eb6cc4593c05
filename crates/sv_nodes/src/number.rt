// Nodes take printed numbers.
ghost use Rattle.std.specs.Prelude.{◌≡◌, ◌+◌, ◌≤◌, ◌<◌, ◌^◌, ◌∷◌, [], IsSome, IfSome, IsSomeAnd};
ghost use Rattle.slab.specs.Slab.{get};
ghost use Rattle.sv_tokens.specs.Counting.{one, times};
ghost use Rattle.sv_tokens.specs.Token.{lacks_number};
ghost use Rattle.sv_nodes.specs.Nodes.{walk, levels};
ghost use Rattle.sv_nodes.specs.Sound.{IsSound};
ghost use Rattle.sv_nodes.specs.Numbers.{lacks, given, Numbers};
ghost use Rattle.sv_nodes.specs.Steps.{Rewrites};
ghost use Rattle.sv_nodes.specs.Cells.{kind_of, cell_of, nodes_of};

use crate::{Content, Entry, entry_at};
use slab::Slab;

/// Gives each element and each text that has no printed number the next one, a node and all below it in
/// document order. Answers the number after the last that was given.
pub fn number_in(nodes: &mut Slab<Entry>, next: u64, key: u32, number: u64) -> u64
    requires sound { IsSound (nodes_of nodes.old.slots) next }
    requires live { IsSome (get nodes.old key) }
    requires room { number + times lacks_number (walk levels (nodes_of nodes.old.slots) (key ∷ [])) ≤ next }
    ensures { Numbers (nodes_of nodes.old.slots) (nodes_of nodes.new.slots) key number result }
{
    let mut number = give_number(nodes, key as usize, number);
    let count = entry_at(nodes, key as usize).children.len();
    for place in 0..count {
        let child = entry_at(nodes, key as usize).children[place];
        number = number_in(nodes, next, child, number);
    }
    number
}

// Gives a node the number, if it lacks one. Answers the next number.
fn give_number(nodes: &mut Slab<Entry>, key: usize, number: u64) -> u64
    requires { IsSomeAnd (get nodes.old key) (λ entry. number + one (lacks entry.number (kind_of entry.content)) < 2 ^ 64) }
    ensures given { Rewrites (nodes_of nodes.old.slots) (nodes_of nodes.new.slots) key (given number) }
    ensures next { IfSome (get nodes.old key) (λ entry. result ≡ number + one (lacks entry.number (kind_of entry.content))) }
{
    match nodes.get_mut(key) {
        Some(entry) => number_entry(entry, number),
        None => number,
    }
}

fn number_entry(entry: &mut Entry, number: u64) -> u64
    requires { number + one (lacks entry.old.number (kind_of entry.old.content)) < 2 ^ 64 }
    ensures given { cell_of entry.new ≡ given number (cell_of entry.old) }
    ensures next { result ≡ number + one (lacks entry.old.number (kind_of entry.old.content)) }
{
    if !lacks_number(&entry.content, entry.number) {
        return number;
    }
    entry.number = Some(number);
    number + 1
}

// Whether a node is an element or a text, and has no number.
fn lacks_number(content: &Content, number: Option<u64>) -> bool
    ensures { result ≡ lacks number (kind_of content.now) }
{
    match content {
        Content::Element(_) => number.is_none(),
        Content::Text(_) => number.is_none(),
        Content::Anchor => false,
    }
}
