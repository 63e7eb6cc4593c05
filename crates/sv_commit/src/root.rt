// The page as a whole.
ghost use Rattle.std.specs.Prelude.{◌≡◌, ◌≤◌, [], IfOk, OnOk};
ghost use Rattle.sv_dom.specs.Dom.{empty_page};
ghost use Rattle.sv_live.specs.Kept.{AreKept};
ghost use Rattle.sv_live.specs.Shown.{Numbers, plainly_all, flat_all};
ghost use Rattle.sv_live.specs.Stands.{Tells, IsFresh};
ghost use Rattle.sv_commit.specs.Root.{IsPage, page_tokens};

use crate::arrange::commit;
use crate::screen::Screen;
use crate::spot::Spot;
use std::alloc::Global;
use sv_base::NoMemory;
use sv_dom::Dom;
use sv_live::{Lives, Named, Node};

/// A page with nothing on it, of which nothing was told.
pub fn blank(alloc: Global) -> Result<Screen, NoMemory>
    ensures page { IfOk result (λ screen. IsPage screen.page []) }
    ensures blank { IfOk result (λ screen. screen ≡ record { page = empty_page; changes = [] }) }
{
    let dom = Dom::new(alloc)?;
    Ok(Screen::new(alloc, dom))
}

/// Brings a page that shows the one to the other: what it shows then is what is to be shown, with its blocks opened. What stays
/// keeps its node, with its serial number and its printed number. What was told makes the new page of the old one.
pub fn show(screen: &mut Screen, nodes: &[Node], lives: Lives) -> Result<Lives, NoMemory>
    requires { IsPage screen.old.page lives }
    ensures page { IfOk result (λ now. IsPage screen.new.page now) }
    ensures shown { IfOk result (λ now. plainly_all now ≡ flat_all nodes.now) }
    ensures kept { IfOk result (λ now. AreKept screen.old.page.next lives now) }
    ensures numbers { IfOk result (λ now. (numbers : Numbers) → IsFresh numbers screen.old.page.next → screen.old.page.tokens ≡ page_tokens numbers lives → screen.new.page.tokens ≡ page_tokens numbers now) }
    ensures later { OnOk result (screen.old.page.next ≤ screen.new.page.next) }
    ensures told { OnOk result (Tells screen.old screen.new) }
{
    let above = Named { key: 0, serial: 0 };
    commit(screen, Spot { above, end: None }, nodes, lives)
}
