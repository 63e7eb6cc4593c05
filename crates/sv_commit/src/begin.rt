// What is there and is not to be shown goes first, so that nothing is moved past it.
ghost use Rattle.std.specs.Prelude.{◌≡◌, ◌++◌, ◌∷◌, [], ◌&&◌, not, ℕ, true, is_some, IfOk, OnOk};
ghost use Rattle.std.specs.BTreeSet.{contains};
ghost use Rattle.std.specs.Ordering.{nat_cmp};
ghost use Rattle.sv_tokens.specs.Counting.{Has};
ghost use Rattle.sv_live.specs.Known.{known, asks};
ghost use Rattle.sv_live.specs.Shown.{name_of, flat, flat_all};
ghost use Rattle.sv_live.specs.Stands.{Stands, Becomes};
ghost use Rattle.sv_commit.specs.Asked.{Adds, Holds};

use crate::screen::Screen;
use crate::shift::put_away;
use crate::spot::Spot;
use std::collections::BTreeSet;
use sv_base::NoMemory;
use sv_live::{Lives, Node, Walk, by_mark, by_place};

/// A walk over what is there, of which what is not to be shown is gone.
pub(crate) fn begin(
    screen: &mut Screen,
    spot: Spot,
    nodes: &[Node],
    lives: Lives,
) -> Result<Walk, NoMemory>
    requires { Stands screen.old.page (name_of spot.above) spot.end lives }
    ensures becomes { IfOk result (λ walk. Becomes screen.old screen.new (name_of spot.above) spot.end lives (walk.rest ++ walk.placed)) }
    ensures known { IfOk result (λ walk. (n : ℕ) → Has (asks n) (flat_all nodes.now) → known n walk.rest ≡ known n lives) }
    ensures placed { IfOk result (λ walk. walk.placed ≡ []) }
{
    let mut walk = Walk::new(screen.alloc(), lives);
    let mut asked = BTreeSet::new(screen.alloc());
    ask_all(&mut asked, nodes)?;
    drop_gone(screen, spot, &mut walk, &asked)?;
    Ok(walk)
}

// Takes away what is not asked for, and what has the number of a later one.
fn drop_gone(
    screen: &mut Screen,
    spot: Spot,
    walk: &mut Walk,
    asked: &BTreeSet<u128>,
) -> Result<(), NoMemory>
    requires { Stands screen.old.page (name_of spot.above) spot.end (walk.old.left ++ walk.old.rest) }
    ensures becomes { OnOk result (Becomes screen.old screen.new (name_of spot.above) spot.end (walk.old.left ++ walk.old.rest) walk.new.rest) }
    ensures known { OnOk result ((n : ℕ) → contains nat_cmp asked.now n ≡ true → known n walk.new.rest ≡ known n (walk.old.left ++ walk.old.rest)) }
    ensures placed { walk.new.placed ≡ walk.old.placed }
{
    while let Some(live) = walk.next_left() {
        if stays(walk, asked, live.number()) {
            walk.keep(live)?;
            continue;
        }
        put_away(screen, spot, live)?;
    }
    Ok(())
}

// Whether one with that number is asked for and is not to be placed already.
fn stays(walk: &Walk, asked: &BTreeSet<u128>, number: u128) -> bool
    ensures { result ≡ (contains nat_cmp asked.now number && not (is_some (known number walk.now.rest))) }
{
    asked.contains(&number) && !walk.has(number)
}

// Notes the numbers of what is to be shown.
#[cycle(ask)]
fn ask_all(asked: &mut BTreeSet<u128>, nodes: &[Node]) -> Result<(), NoMemory>
    ensures { OnOk result (Holds asked.old asked.new (flat_all nodes.now)) }
{
    for node in nodes {
        ask_one(asked, node)?;
    }
    Ok(())
}

#[cycle(ask)]
fn ask_one(asked: &mut BTreeSet<u128>, node: &Node) -> Result<(), NoMemory>
    ensures { OnOk result (Holds asked.old asked.new (flat node.now)) }
{
    match node {
        Node::Text { mark, .. } => ask(asked, by_mark(*mark)),
        Node::Element { own, .. } => ask(asked, by_mark(own.mark)),
        Node::Hole { place } => ask(asked, by_place(*place)),
        Node::Block { parts } => ask_all(asked, parts.as_slice()),
    }
}

fn ask(asked: &mut BTreeSet<u128>, number: u128) -> Result<(), NoMemory>
    ensures { OnOk result (Adds asked.old asked.new number) }
{
    asked.insert(number)?;
    Ok(())
}
