// Links turned round.
ghost use Rattle.std.specs.Prelude.{◌≡◌, ◌<◌, ◌^◌, [], IfOk, OnOk, length, replicate, All};
ghost use Rattle.sv_graph.specs.Links.{IsWhole, AddsLinks, IsTurned};

use std::alloc::Global;
use sv_base::NoMemory;
use sv_list::Items;

/// As many points without links.
pub fn unlinked(alloc: Global, count: usize) -> Result<Vec<Items<u32>>, NoMemory>
    ensures { IfOk result (λ links. links.items ≡ replicate count []) }
{
    let mut links = Vec::new(alloc);
    for _ in 0..count {
        links.push(Items::new(alloc))?;
    }
    Ok(links)
}

/// The links turned round: each point is linked to those that were linked to it.
pub(crate) fn turned(alloc: Global, links: &[Items<u32>]) -> Result<Vec<Items<u32>>, NoMemory>
    requires whole { IsWhole links.now }
    requires few { length links.now < 2 ^ 32 }
    ensures size { IfOk result (λ turned. length turned.items ≡ length links.now) }
    ensures turned { IfOk result (λ turned. IsTurned links.now turned.items) }
{
    let mut turned = unlinked(alloc, links.len())?;
    for (point, linked) in links.iter().enumerate() {
        add_links(&mut turned, linked.as_slice(), point as u32)?;
    }
    Ok(turned)
}

// Links each of some points to one.
fn add_links(links: &mut Vec<Items<u32>>, from: &[u32], to: u32) -> Result<(), NoMemory>
    requires { All (λ p. p < length links.old.items) from.now }
    ensures size { length links.new.items ≡ length links.old.items }
    ensures links { OnOk result (AddsLinks links.old.items from.now to links.new.items) }
{
    for point in from {
        links[*point as usize].push(to)?;
    }
    Ok(())
}
