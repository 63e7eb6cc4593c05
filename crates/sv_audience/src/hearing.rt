// How watchers hear of a page.
ghost use Rattle.sv_audience.specs.Hearing.{Hears};
ghost use Rattle.sv_watch.specs.Ear.{ears_of};

use crate::audience::Audience;
use sv_base::NoMemory;
use sv_document::Node;
use sv_follow::PageTree;
use sv_watch::{Watcher, tell_each};

/// Brings a page tree to these nodes, and tells the watchers each change of it, in order. One that refuses a change goes to the end of those
/// that are gone. Where memory is wanting, for the page or for a change, the tree is gone, and no later change is told.
pub fn hear<W: Watcher>(
    tree: PageTree,
    nodes: &[Node],
    audience: &mut Audience<W>,
) -> Result<PageTree, NoMemory>
    ensures { Hears tree nodes.now result
        (ears_of W.Watcher audience.old.watchers.items) (ears_of W.Watcher audience.new.watchers.items)
        (ears_of W.Watcher audience.old.gone.items) (ears_of W.Watcher audience.new.gone.items) }
{
    let tree = tree.follow(nodes)?;
    tell_each(&mut audience.watchers, &mut audience.gone, tree.changes())?;
    Ok(tree)
}
