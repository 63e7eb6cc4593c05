// The page tree.
ghost use Rattle.std.specs.Prelude.{◌≡◌, List, IfOk};
ghost use Rattle.sv_commit.specs.Root.{IsPage};
ghost use Rattle.sv_document.specs.declared.tree.Node.{Node as Asked};
ghost use Rattle.sv_follow.specs.Followed.{Follows, TakesNumbers, tree_of, blank as blank_tree};
ghost use Rattle.sv_follow.specs.Outline.{outline as asked};

use crate::asking::outline;
use std::alloc::Global;
use std::marker::Model;
use sv_base::NoMemory;
use sv_commit::{Screen, blank, show};
use sv_document::Node;
use sv_dom::Dom;
use sv_list::Items;
use sv_live::{Lives, Node as Wanted};
use sv_tokens::Change;

/// A page tree: a page, what it shows, and what was told of how it came to that.
#[derive(Drop)]
pub struct PageTree {
    alloc: Global,
    screen: Screen,
    lives: Lives,
}

impl Model for PageTree {
    ghost use Rattle.std.specs.Coded.{codes};
    ghost use Rattle.sv_commit.specs.Root.{IsPage};
    ghost use Rattle.sv_follow.specs.Followed.{Tree};
    ghost use Rattle.sv_live.specs.contracts.live.Live as entry;
    ghost use Rattle.sv_tokens.specs.contracts.change.Change as change;

    ghost Value = { Tree };

    ghost coded = { Prim.hlevel (codes, entry.the_row.coded, change.the_row.coded) };

    ghost view = { λ t. record { page = t.screen.page; lives = t.lives; changes = t.screen.changes } };

    ghost invariant = { λ t. IsPage t.screen.page t.lives };
}

impl PageTree {
    /// A page that shows nothing, of which nothing was told. The next serial number is 1.
    pub fn new(alloc: Global) -> Result<PageTree, NoMemory>
        ensures { IfOk result (λ tree. tree ≡ blank_tree) }
    {
        let screen = blank(alloc)?;
        Ok(PageTree {
            alloc,
            screen,
            lives: Items::new(alloc),
        })
    }

    /// Brings the page to these nodes, and tells each change of it. What stays keeps its node, with its serial number: a text whose mark
    /// stood among the same ones, and so an element of the same name, in which it goes on. Where memory runs out the page is half
    /// changed, so it is gone.
    pub fn follow(self, nodes: &[Node]) -> Result<PageTree, NoMemory>
        ensures { IfOk result (λ tree. Follows self nodes.now tree) }
    {
        let wanted = outline(self.alloc, nodes)?;
        let PageTree {
            alloc,
            mut screen,
            lives,
        } = self;
        let now = bring(&mut screen, lives, wanted.as_slice());
        drop(wanted);
        let lives = now?;
        Ok(PageTree {
            alloc,
            screen,
            lives,
        })
    }

    /// Gives each element and each text that has no printed number the next one, in document order. A number stays with its node, and none
    /// is used again.
    pub fn number(&mut self)
        ensures { TakesNumbers self.old self.new }
    {
        let _ = self.screen.page().page();
        self.screen.number();
    }

    /// The page.
    pub fn page(&self) -> &Dom
        ensures { result.now ≡ self.now.page }
    {
        self.screen.page()
    }

    /// What the last call of `follow` told, in order.
    pub fn changes(&self) -> &[Change]
        ensures { result.now ≡ self.now.changes }
    {
        self.screen.told()
    }
}

// Brings a page to what is asked for, and tells of that alone.
fn bring(screen: &mut Screen, lives: Lives, wanted: &[Wanted]) -> Result<Lives, NoMemory>
    requires { IsPage screen.old.page lives }
    ensures { IfOk result (λ now. (nodes : List Asked) → wanted.now ≡ asked nodes → Follows (tree_of screen.old lives) nodes (tree_of screen.new now)) }
{
    screen.forget();
    let now = show(screen, wanted, lives)?;
    let _ = screen.page().page();
    Ok(now)
}
