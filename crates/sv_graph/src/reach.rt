// The points that paths of links reach.
ghost use Rattle.std.specs.Prelude.{◌<◌, IfOk, OnOk, length, All};
ghost use Rattle.sv_graph.specs.Links.{IsWhole, links_of};
ghost use Rattle.sv_graph.specs.Reached.{IsReached, Adds, Reaches};
ghost use Rattle.sv_graph.specs.Search.{met_at};

use std::alloc::Global;
use sv_base::NoMemory;
use sv_list::Items;

/// For each point, whether it is one of some starts or a path of links leads to it from one.
pub fn reached(alloc: Global, links: &[Items<u32>], starts: &[u32]) -> Result<Vec<bool>, NoMemory>
    requires whole { IsWhole links.now }
    requires within { All (λ p. p < length links.now) starts.now }
    ensures { IfOk result (λ reached. IsReached (links_of links.now) starts.now (length links.now) reached.items) }
{
    let mut met = vec![in alloc; false; links.len()]?;
    let mut stack = Vec::new(alloc);
    meet_all(&mut met, &mut stack, starts)?;
    while let Some(point) = stack.pop() {
        meet_all(&mut met, &mut stack, links[point as usize].as_slice())?;
    }
    Ok(met)
}

// Meets each of some points, and stacks those that weren't met.
fn meet_all(met: &mut Vec<bool>, stack: &mut Vec<u32>, points: &[u32]) -> Result<(), NoMemory>
    requires { All (λ p. p < length met.old.items) points.now }
    ensures { OnOk result (Reaches points.now met.old.items stack.old.items met.new.items stack.new.items) }
{
    for point in points {
        meet(met, stack, *point)?;
    }
    Ok(())
}

// Meets a point, and stacks it if it wasn't met.
fn meet(met: &mut Vec<bool>, stack: &mut Vec<u32>, point: u32) -> Result<(), NoMemory>
    requires { point < length met.old.items }
    ensures { OnOk result (Adds (met_at met.old.items point) point met.old.items stack.old.items met.new.items stack.new.items) }
{
    if !met[point as usize] {
        met[point as usize] = true;
        stack.push(point)?;
    }
    Ok(())
}
