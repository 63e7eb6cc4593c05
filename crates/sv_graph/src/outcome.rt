// Visits of points, or the first cycle of their links.
ghost use Rattle.std.specs.Prelude.{◌<◌, ◌≤◌, ◌^◌, IfOk, length};
ghost use Rattle.sv_graph.specs.Links.{IsWhole};
ghost use Rattle.sv_graph.specs.Visited.{IsVisited};

use crate::cycle::first_cycle;
use crate::groups::groups_of;
use crate::turn::turned;
use crate::walk::walk_all;
use std::alloc::Global;
use sv_base::NoMemory;
use sv_list::Items;

/// What comes of visiting points.
#[derive(Drop)]
pub enum Visited {
    /// The points that were placed, in their order.
    Order(Vec<u32>),
    /// Points each of which the next is linked to, and the last of which the first is linked to, from the first point
    /// that lies on any such cycle.
    Cycle(Vec<u32>),
}

/// Visits the first `count` points in order: a visit of a point that isn't placed yet first visits those that it is linked
/// to, in their order, and then places it. `Cycle` comes only where there is a cycle of links, and wherever one is met.
pub fn visit(alloc: Global, links: &[Items<u32>], count: u32) -> Result<Visited, NoMemory>
    requires whole { IsWhole links.now }
    requires few { length links.now < 2 ^ 32 }
    requires starts { count ≤ length links.now }
    ensures { IfOk result (IsVisited links.now count) }
{
    let walk = walk_all(alloc, links, count)?;
    if walk.is_cyclic {
        let turned = turned(alloc, links)?;
        let groups = groups_of(alloc, &turned, &walk.order)?;
        return Ok(Visited::Cycle(first_cycle(alloc, &turned, &groups)?));
    }
    Ok(Visited::Order(walk.order))
}
