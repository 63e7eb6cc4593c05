// The walk that places each point behind those that it is linked to. A stack holds the points that are being visited, so that
// a long line of them takes no deep recursion.
ghost use Rattle.std.specs.Prelude.{◌≡◌, ◌<◌, ◌≤◌, [], ◌∷◌, ◌++◌, ℕ, IfOk, OnOk, true, false, length, slice_set, All};
ghost use Rattle.std.specs.List.{range_with_len};
ghost use Rattle.sv_graph.specs.Links.{links_of, IsWhole};
ghost use Rattle.sv_graph.specs.Visits.{Visits};
ghost use Rattle.sv_graph.specs.Path.{Path};
ghost use Rattle.sv_graph.specs.Walk.{mark_of, IsWalk, Enters};

use crate::marks::{Frame, Mark, next_link};
use std::alloc::Global;
use sv_base::NoMemory;
use sv_list::Items;

/// What a walk has done: its marks, the points that it placed, and whether it came back to one that it was still visiting.
#[derive(Drop)]
pub(crate) struct Walk {
    pub(crate) marks: Vec<Mark>,
    pub(crate) order: Vec<u32>,
    pub(crate) is_cyclic: bool,
}

/// A walk from each of the first `count` points.
pub(crate) fn walk_all(alloc: Global, links: &[Items<u32>], count: u32) -> Result<Walk, NoMemory>
    requires whole { IsWhole links.now }
    requires starts { count ≤ length links.now }
    ensures order { IfOk result (λ walk. walk.is_cyclic ≡ false → Visits (links_of links.now) [] (range_with_len 0 count) walk.order.items) }
    ensures cyclic { IfOk result (λ walk. walk.is_cyclic ≡ true → (p : ℕ) × Path (links_of links.now) p p) }
    ensures within { IfOk result (λ walk. All (λ p. p < length links.now) walk.order.items) }
{
    let mut walk = Walk {
        marks: vec![in alloc; Mark::New; links.len()]?,
        order: Vec::new(alloc),
        is_cyclic: false,
    };
    for start in 0..count {
        walk_from(alloc, links, &mut walk, start)?;
    }
    Ok(walk)
}

// Visits a point, and with it all that it leads to, where it is new.
fn walk_from(
    alloc: Global,
    links: &[Items<u32>],
    walk: &mut Walk,
    start: u32,
) -> Result<(), NoMemory>
    requires whole { IsWhole links.now }
    requires within { start < length links.now }
    requires walk { IsWalk links.now walk.old [] }
    requires known { walk.old.is_cyclic ≡ true → (p : ℕ) × Path (links_of links.now) p p }
    ensures walk { OnOk result (IsWalk links.now walk.new []) }
    ensures visited { OnOk result (walk.new.is_cyclic ≡ false → Visits (links_of links.now) walk.old.order.items (start ∷ []) walk.new.order.items) }
    ensures earlier { OnOk result (walk.new.is_cyclic ≡ false → walk.old.is_cyclic ≡ false) }
    ensures known { OnOk result (walk.new.is_cyclic ≡ true → (p : ℕ) × Path (links_of links.now) p p) }
{
    if !walk.marks[start as usize].is_new() {
        return Ok(());
    }
    let mut stack = Vec::new(alloc);
    enter(walk, &mut stack, start)?;
    while let Some(frame) = stack.pop() {
        match next_link(links, &frame) {
            None => place(walk, frame.point)?,
            Some(point) => {
                stack.push(Frame {
                    point: frame.point,
                    next: frame.next + 1,
                })?;
                enter(walk, &mut stack, point)?;
            }
        }
    }
    Ok(())
}

// Begins to visit a point if it is new, and notes a cycle if it is being visited already.
fn enter(walk: &mut Walk, stack: &mut Vec<Frame>, point: u32) -> Result<(), NoMemory>
    requires { point < length walk.old.marks.items }
    ensures { OnOk result (Enters (mark_of walk.old.marks.items point) point walk.old stack.old.items walk.new stack.new.items) }
{
    match walk.marks[point as usize] {
        Mark::New => {
            walk.marks[point as usize] = Mark::Open;
            stack.push(Frame { point, next: 0 })?;
        }
        Mark::Open => walk.is_cyclic = true,
        Mark::Done => (),
    }
    Ok(())
}

// Places a point behind the others.
fn place(walk: &mut Walk, point: u32) -> Result<(), NoMemory>
    requires { point < length walk.old.marks.items }
    ensures marks { OnOk result (walk.new.marks.items ≡ slice_set walk.old.marks.items point Mark.Done) }
    ensures order { OnOk result (walk.new.order.items ≡ walk.old.order.items ++ point ∷ []) }
    ensures cyclic { walk.new.is_cyclic ≡ walk.old.is_cyclic }
{
    walk.marks[point as usize] = Mark::Done;
    walk.order.push(point)?;
    Ok(())
}
