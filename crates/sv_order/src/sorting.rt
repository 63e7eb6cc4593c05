// The order of reactive statements.
ghost use Rattle.std.specs.Prelude.{◌≡◌, ◌<◌, ◌^◌, ℕ, List, length, IfOk, IfErr, OnOk, filter, nat_lt};
ghost use Rattle.sv_graph.specs.Cycle.{IsCycle, IsFirstCycle};
ghost use Rattle.sv_order.specs.Points.{IsFound};
ghost use Rattle.sv_order.specs.ReactiveOrder.{Before, IsOrder, IsEachOnce, IsBehind, IsCause};

use crate::links::statement_links;
use crate::names::assigned_names;
use crate::reads::{OrderError, Reads};
use std::alloc::Global;
use sv_base::NoMemory;
use sv_graph::{Visited, visit};

// The most statements and names, so that each point is a `u32`.
const POINT_LIMIT: usize = u32::MAX as usize;

/// The places of the statements in the order in which they run: visited in source order, where a visit of one that isn't
/// placed yet first visits those that are before it, by the names that it reads and then in source order, and then places it.
///
/// A statement is before another if it assigns a name that the other reads and doesn't assign. `Cycle` comes exactly where
/// statements are before one another in a cycle.
pub fn order(alloc: Global, list: &[Reads]) -> Result<Vec<u32>, OrderError>
    ensures order { IfOk result (λ order. IsOrder list.now order.items) }
    ensures once { IfOk result (λ order. IsEachOnce list.now order.items) }
    ensures behind { IfOk result (λ order. IsBehind list.now order.items) }
    ensures acyclic { OnOk result ((cycle : List ℕ) → IsCycle (Before list.now) cycle → ⊥) }
    ensures cycle { IfErr result (IsCause list.now) }
{
    let found = visited(alloc, list)?;
    let count = list.len() as u32;
    match found {
        Visited::Order(points) => Ok(statements_of(alloc, &points, count)?),
        Visited::Cycle(points) => Err(OrderError::Cycle(statements_of(alloc, &points, count)?)),
    }
}

// What comes of visits of the statements, with the names that they assign as points between them.
fn visited(alloc: Global, list: &[Reads]) -> Result<Visited, NoMemory>
    ensures few { OnOk result (length list.now < 2 ^ 32) }
    ensures found { IfOk result (IsFound list.now) }
{
    let names = assigned_names(alloc, list)?;
    if list.len() > POINT_LIMIT || names.len() > POINT_LIMIT - list.len() {
        return Err(NoMemory);
    }
    let count = list.len() as u32;
    let links = statement_links(alloc, list, &names)?;
    visit(alloc, &links, count)
}

// The points that are statements.
fn statements_of(alloc: Global, points: &[u32], count: u32) -> Result<Vec<u32>, NoMemory>
    ensures { IfOk result (λ statements. statements.items ≡ filter (λ p. nat_lt p count) points.now) }
{
    let statements = points
        .iter()
        .copied()
        .filter(|point| *point < count)
        .collect(alloc)?;
    Ok(statements)
}
