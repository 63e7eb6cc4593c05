// A page that is rebuilt from its changes.
ghost use Rattle.std.specs.Prelude.{◌≡◌, false, IfOk, OnOk, OnErr};
ghost use Rattle.sv_tokens.specs.Token.{Page as Tokens};
ghost use Rattle.sv_tokens.specs.Seen.{view_of};
ghost use Rattle.sv_tokens.specs.Replay.{replay};
ghost use Rattle.sv_html.specs.Html.{html};
ghost use Rattle.sv_watch.specs.Fits as spec;
ghost use Rattle.sv_watch.specs.Mirror.{blank, page_html};

use crate::fits::fits;
use crate::page::{Page, apply, empty_page, print};
use std::alloc::Global;
use std::marker::Model;
use sv_base::NoMemory;
use sv_tokens::Change;

/// A page that is rebuilt from its changes. A clause sees it as watchers see a page.
#[derive(Drop)]
pub struct Replica {
    page: Page,
}

impl Model for Replica {
    ghost use Rattle.sv_tokens.specs.Seen.{View, IsNumbered};
    ghost use Rattle.sv_watch.specs.Page.{view_in};

    ghost Value = { View };

    ghost view = { λ replica. view_in replica.page };

    ghost invariant = { λ replica. IsNumbered (view_in replica.page).tokens (view_in replica.page).next };
}

impl Replica {
    /// The page with nothing on it.
    pub fn new(alloc: Global) -> Result<Replica, NoMemory>
        ensures { IfOk result (λ replica. replica ≡ blank) }
    {
        let page = empty_page(alloc)?;
        Ok(Replica { page })
    }

    /// Whether the change fits the page.
    pub fn fits(&self, change: &Change) -> bool
        ensures { result ≡ spec.fits change.now self.now }
    {
        fits(&self.page, change)
    }

    /// Brings a change to the page. A page that finds no memory stays as it was.
    pub fn apply(&mut self, change: &Change) -> Result<(), NoMemory>
        ensures ok { OnOk result (self.new ≡ replay change.now self.old) }
        ensures err { OnErr result (self.new ≡ self.old) }
    {
        apply(&mut self.page, change)
    }

    /// The text of the page: of any page that is seen so.
    pub fn html(&self, alloc: Global) -> Result<Vec<u8>, NoMemory>
        ensures text { IfOk result (λ bytes. bytes.items ≡ page_html self.now.tokens) }
        ensures page { IfOk result (λ bytes. (page : Tokens) → view_of page ≡ self.now → bytes.items ≡ html false page.tokens) }
    {
        let mut out = Vec::new(alloc);
        print(alloc, &self.page.pieces, &mut out)?;
        Ok(out)
    }
}
