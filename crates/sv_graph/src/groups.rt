// Groups of points, so that the search for a cycle passes over the points that lie on none.
ghost use Rattle.std.specs.Prelude.{◌≡◌, ◌≤◌, ◌<◌, ◌+◌, ◌*◌, ◌==◌, ◌^◌, ◌-◌, [], IfOk, OnOk, All, count_by, length};
ghost use Rattle.std.specs.List.{list_any};
ghost use Rattle.sv_graph.specs.Links.{IsWhole, links_of};
ghost use Rattle.sv_graph.specs.Groups.{group_at, NoneRises, IsFlooded, IsFlooding, Takes, is_free};

use std::alloc::Global;
use sv_base::NoMemory;
use sv_list::Items;

// What stands for the group of a point that has none yet: it is greater than each group.
const NO_GROUP: usize = usize::MAX;

/// A group for each point, so that none is linked to one of a greater group. The roots are taken from the last on, and all
/// points without a group that one leads to come into its group.
///
/// Over the links of a walk turned round, with its order for roots, a group has just the points that lead to one another
/// (Kosaraju's algorithm), so that the first search for a cycle finds one. That is why it is quick; its answer needs only
/// that no group rises.
pub(crate) fn groups_of(
    alloc: Global,
    links: &[Items<u32>],
    roots: &[u32],
) -> Result<Vec<usize>, NoMemory>
    requires whole { IsWhole links.now }
    requires within { All (λ p. p < length links.now) roots.now }
    ensures size { IfOk result (λ groups. length groups.items ≡ length links.now) }
    ensures falls { IfOk result (λ groups. NoneRises links.now groups.items) }
{
    let mut groups = vec![in alloc; NO_GROUP; links.len()]?;
    for group in 0..roots.len() {
        flood(
            alloc,
            links,
            &mut groups,
            roots[roots.len() - 1 - group],
            group,
        )?;
    }
    Ok(groups)
}

// Takes into a group all points without one that the root leads to.
fn flood(
    alloc: Global,
    links: &[Items<u32>],
    groups: &mut Vec<usize>,
    root: u32,
    group: usize,
) -> Result<(), NoMemory>
    requires whole { IsWhole links.now }
    requires within { root < length links.now }
    requires small { group < 2 ^ 64 - 1 }
    requires earlier { IsFlooded links.now groups.old.items group }
    ensures { OnOk result (IsFlooded links.now groups.new.items (group + 1)) }
{
    let mut stack = Vec::new(alloc);
    take(groups, &mut stack, root, group)?;
    while let Some(point) = stack.pop() {
        take_all(groups, &mut stack, links, point, group)?;
    }
    Ok(())
}

// Takes into a group all points that a point of the group is linked to.
fn take_all(
    groups: &mut Vec<usize>,
    stack: &mut Vec<u32>,
    links: &[Items<u32>],
    point: u32,
    group: usize,
) -> Result<(), NoMemory>
    requires whole { IsWhole links.now }
    requires within { point < length links.now }
    requires small { group < 2 ^ 64 - 1 }
    requires own { group_at groups.old.items point ≡ group }
    requires flooding { IsFlooding links.now groups.old.items stack.old.items group point (links_of links.now point) }
    ensures flooding { OnOk result (IsFlooding links.now groups.new.items stack.new.items group point []) }
    ensures less { OnOk result (2 * count_by is_free groups.new.items + length stack.new.items ≤ 2 * count_by is_free groups.old.items + length stack.old.items) }
{
    for other in links[point as usize].as_slice() {
        take(groups, stack, *other, group)?;
    }
    Ok(())
}

// Takes a point into a group if it has none.
fn take(
    groups: &mut Vec<usize>,
    stack: &mut Vec<u32>,
    point: u32,
    group: usize,
) -> Result<(), NoMemory>
    requires { point < length groups.old.items }
    ensures { OnOk result (Takes (is_free (group_at groups.old.items point)) point group groups.old.items stack.old.items groups.new.items stack.new.items) }
{
    if groups[point as usize] == NO_GROUP {
        groups[point as usize] = group;
        stack.push(point)?;
    }
    Ok(())
}

/// Whether the point is linked to one of its own group.
pub(crate) fn stays(links: &[Items<u32>], groups: &[usize], point: u32) -> bool
    requires whole { IsWhole links.now }
    requires size { length groups.now ≡ length links.now }
    requires within { point < length links.now }
    ensures { result ≡ list_any (λ q. group_at groups.now q == group_at groups.now point) (links_of links.now point) }
{
    for other in links[point as usize].as_slice() {
        if groups[*other as usize] == groups[point as usize] {
            return true;
        }
    }
    false
}
