// The search for a cycle.
ghost use Rattle.std.specs.Prelude.{◌≡◌, ◌<◌, ◌^◌, ℕ, IfOk, OnOk, MatchOption, length, map};
ghost use Rattle.sv_graph.specs.Links.{links_of, IsWhole, IsLink};
ghost use Rattle.sv_graph.specs.Cycle.{IsFirstCycle};
ghost use Rattle.sv_graph.specs.Groups.{NoneRises};
ghost use Rattle.sv_graph.specs.Path.{Path};
ghost use Rattle.sv_graph.specs.Search.{met_at, Meets, IsCycleOf};

use crate::groups::stays;
use crate::marks::{Frame, next_link};
use std::alloc::Global;
use sv_base::NoMemory;
use sv_list::Items;

/// The first cycle: it begins with the first point that lies on any.
pub(crate) fn first_cycle(
    alloc: Global,
    links: &[Items<u32>],
    groups: &[usize],
) -> Result<Vec<u32>, NoMemory>
    requires whole { IsWhole links.now }
    requires size { length groups.now ≡ length links.now }
    requires falls { NoneRises links.now groups.now }
    requires few { length links.now < 2 ^ 32 }
    requires cyclic { (p : ℕ) × Path (links_of links.now) p p }
    ensures { IfOk result (λ cycle. IsFirstCycle (IsLink links.now) cycle.items) }
{
    let mut start = 0;
    loop {
        if let Some(cycle) = cycle_from(alloc, links, groups, start)? {
            return Ok(cycle);
        }
        start += 1;
    }
}

// A cycle that begins with `start`, or `None` where it lies on none. It lies on none where it is linked to none of its own
// group.
fn cycle_from(
    alloc: Global,
    links: &[Items<u32>],
    groups: &[usize],
    start: u32,
) -> Result<Option<Vec<u32>>, NoMemory>
    requires whole { IsWhole links.now }
    requires size { length groups.now ≡ length links.now }
    requires falls { NoneRises links.now groups.now }
    requires within { start < length links.now }
    ensures { IfOk result (λ found. MatchOption found (Path (links_of links.now) start start → ⊥) (λ cycle. IsCycleOf links.now start cycle.items)) }
{
    if !stays(links, groups, start) {
        return Ok(None);
    }
    let mut met = vec![in alloc; false; links.len()]?;
    let mut stack = Vec::new(alloc);
    stack.push(Frame {
        point: start,
        next: 0,
    })?;
    while let Some(frame) = stack.pop() {
        if let Some(point) = next_link(links, &frame) {
            stack.push(Frame {
                point: frame.point,
                next: frame.next + 1,
            })?;
            if point == start {
                return Ok(Some(points_of(alloc, &stack)?));
            }
            meet(&mut met, &mut stack, point)?;
        }
    }
    Ok(None)
}

// Goes on to a point that was not met.
fn meet(met: &mut Vec<bool>, stack: &mut Vec<Frame>, point: u32) -> Result<(), NoMemory>
    requires { point < length met.old.items }
    ensures { OnOk result (Meets (met_at met.old.items point) point met.old.items stack.old.items met.new.items stack.new.items) }
{
    if !met[point as usize] {
        met[point as usize] = true;
        stack.push(Frame { point, next: 0 })?;
    }
    Ok(())
}

// The points of frames.
fn points_of(alloc: Global, frames: &[Frame]) -> Result<Vec<u32>, NoMemory>
    ensures { IfOk result (λ points. points.items ≡ map (λ f. f.point) frames.now) }
{
    let points = frames.iter().map(|frame| frame.point).collect(alloc)?;
    Ok(points)
}
