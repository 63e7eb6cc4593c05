// What is to be shown in one place.
ghost use Rattle.std.specs.Prelude.{◌≡◌, ◌++◌, ◌∷◌, IfOk, OnOk};
ghost use Rattle.sv_live.specs.declared.node.Node.TheVariants as node;
ghost use Rattle.sv_live.specs.Kept.{AreKept};
ghost use Rattle.sv_live.specs.Shown.{name_of, plainly_all, flat, flat_all};
ghost use Rattle.sv_live.specs.Stands.{Stands, Becomes};
ghost use Rattle.sv_live.specs.Walk.{Places};

use crate::begin::begin;
use crate::dress::dress;
use crate::screen::Screen;
use crate::shift::put_away;
use crate::spot::Spot;
use crate::stand::{stand_element, stand_hole, stand_text};
use sv_base::{NoMemory, Text};
use sv_live::{Live, Lives, Node, Own, Walk};

/// Brings what stands at a place of the page to what is to be shown there: all around is as it was, what is shown then is what
/// was to be shown, what stays keeps its node, and each change is told. A child component keeps what it shows.
#[cycle(commit)]
pub fn commit(
    screen: &mut Screen,
    spot: Spot,
    nodes: &[Node],
    lives: Lives,
) -> Result<Lives, NoMemory>
    requires { Stands screen.old.page (name_of spot.above) spot.end lives }
    ensures becomes { IfOk result (λ now. Becomes screen.old screen.new (name_of spot.above) spot.end lives now) }
    ensures shown { IfOk result (λ now. plainly_all now ≡ flat_all nodes.now) }
    ensures kept { IfOk result (λ now. AreKept screen.old.page.next lives now) }
{
    let mut walk = begin(screen, spot, nodes, lives)?;
    place_all(screen, spot, &mut walk, nodes)?;
    clear(screen, spot, &mut walk)?;
    Ok(walk.into_placed())
}

// Places those, the last one first.
#[cycle(commit)]
fn place_all(
    screen: &mut Screen,
    spot: Spot,
    walk: &mut Walk,
    nodes: &[Node],
) -> Result<(), NoMemory>
    requires { Stands screen.old.page (name_of spot.above) spot.end (walk.old.rest ++ walk.old.placed) }
    ensures becomes { OnOk result (Becomes screen.old screen.new (name_of spot.above) spot.end (walk.old.rest ++ walk.old.placed) (walk.new.rest ++ walk.new.placed)) }
    ensures shown { OnOk result (plainly_all walk.new.placed ≡ flat_all nodes.now ++ plainly_all walk.old.placed) }
    ensures keeps { OnOk result (Places screen.old.page.next walk.old walk.new) }
{
    let mut i = nodes.len();
    while i > 0 {
        i -= 1;
        place_one(screen, spot, walk, &nodes[i])?;
    }
    Ok(())
}

// Places one before those that are placed.
#[cycle(commit)]
fn place_one(screen: &mut Screen, spot: Spot, walk: &mut Walk, node: &Node) -> Result<(), NoMemory>
    requires { Stands screen.old.page (name_of spot.above) spot.end (walk.old.rest ++ walk.old.placed) }
    ensures becomes { OnOk result (Becomes screen.old screen.new (name_of spot.above) spot.end (walk.old.rest ++ walk.old.placed) (walk.new.rest ++ walk.new.placed)) }
    ensures shown { OnOk result (plainly_all walk.new.placed ≡ flat node.now ++ plainly_all walk.old.placed) }
    ensures keeps { OnOk result (Places screen.old.page.next walk.old walk.new) }
{
    match node {
        Node::Text { mark, text } => place_text(screen, spot, walk, *mark, text),
        Node::Element { own, parts } => place_element(screen, spot, walk, own, parts.as_slice()),
        Node::Hole { place } => place_hole(screen, spot, walk, *place),
        Node::Block { parts } => place_all(screen, spot, walk, parts.as_slice()),
    }
}

fn place_text(
    screen: &mut Screen,
    spot: Spot,
    walk: &mut Walk,
    mark: u64,
    text: &Text,
) -> Result<(), NoMemory>
    requires { Stands screen.old.page (name_of spot.above) spot.end (walk.old.rest ++ walk.old.placed) }
    ensures becomes { OnOk result (Becomes screen.old screen.new (name_of spot.above) spot.end (walk.old.rest ++ walk.old.placed) (walk.new.rest ++ walk.new.placed)) }
    ensures shown { OnOk result (plainly_all walk.new.placed ≡ node.Text mark text.now ∷ plainly_all walk.old.placed) }
    ensures keeps { OnOk result (Places screen.old.page.next walk.old walk.new) }
{
    let named = stand_text(screen, spot, walk, mark, text)?;
    let text = text.share()?;
    walk.put(Live::Text { mark, named, text })
}

#[cycle(commit)]
fn place_element(
    screen: &mut Screen,
    spot: Spot,
    walk: &mut Walk,
    own: &Own,
    nodes: &[Node],
) -> Result<(), NoMemory>
    requires { Stands screen.old.page (name_of spot.above) spot.end (walk.old.rest ++ walk.old.placed) }
    ensures becomes { OnOk result (Becomes screen.old screen.new (name_of spot.above) spot.end (walk.old.rest ++ walk.old.placed) (walk.new.rest ++ walk.new.placed)) }
    ensures shown { OnOk result (plainly_all walk.new.placed ≡ node.Element own.now (flat_all nodes.now) ∷ plainly_all walk.old.placed) }
    ensures keeps { OnOk result (Places screen.old.page.next walk.old walk.new) }
{
    let standing = stand_element(screen, spot, walk, own)?;
    screen.has_keys();
    dress(screen, standing.named, &standing.own, own)?;
    screen.has_keys();
    let own = own.share(screen.alloc())?;
    let inside = Spot {
        above: standing.named,
        end: None,
    };
    let parts = commit(screen, inside, nodes, standing.parts)?;
    walk.put(Live::Element {
        named: standing.named,
        own,
        parts,
    })
}

fn place_hole(screen: &mut Screen, spot: Spot, walk: &mut Walk, place: u64) -> Result<(), NoMemory>
    requires { Stands screen.old.page (name_of spot.above) spot.end (walk.old.rest ++ walk.old.placed) }
    ensures becomes { OnOk result (Becomes screen.old screen.new (name_of spot.above) spot.end (walk.old.rest ++ walk.old.placed) (walk.new.rest ++ walk.new.placed)) }
    ensures shown { OnOk result (plainly_all walk.new.placed ≡ node.Hole place ∷ plainly_all walk.old.placed) }
    ensures keeps { OnOk result (Places screen.old.page.next walk.old walk.new) }
{
    let standing = stand_hole(screen, spot, walk, place)?;
    walk.put(Live::Hole {
        place,
        anchor: standing.anchor,
        parts: standing.parts,
    })
}

// Takes away what is not placed.
fn clear(screen: &mut Screen, spot: Spot, walk: &mut Walk) -> Result<(), NoMemory>
    requires { Stands screen.old.page (name_of spot.above) spot.end (walk.old.rest ++ walk.old.placed) }
    ensures becomes { OnOk result (Becomes screen.old screen.new (name_of spot.above) spot.end (walk.old.rest ++ walk.old.placed) walk.new.placed) }
    ensures placed { walk.new.placed ≡ walk.old.placed }
{
    while let Some(live) = walk.take_last() {
        put_away(screen, spot, live)?;
    }
    Ok(())
}
