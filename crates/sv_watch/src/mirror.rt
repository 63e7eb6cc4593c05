// A watcher that shows the page.
ghost use Rattle.std.specs.Prelude.{◌≡◌, ◌++◌, ◌∷◌, [], IfOk, OnOk, OnErr};
ghost use Rattle.sv_watch.specs.Fits as spec;
ghost use Rattle.sv_watch.specs.Mirror.{mirrored};

use crate::copy::copy_of;
use crate::replica::Replica;
use crate::{TellError, Watcher};
use std::alloc::Global;
use std::marker::Model;
use sv_base::NoMemory;
use sv_tokens::Change;

/// A watcher that rebuilds the page from the changes that it hears, and reports its text. It never refuses a change. One that
/// fits nowhere leaves the page as it was, and is heard.
#[derive(Drop)]
pub struct Mirror {
    heard: Vec<Change>,
    replica: Replica,
}

impl Model for Mirror {
    ghost use Rattle.std.specs.Prelude.{◌≡◌, List};
    ghost use Rattle.sv_tokens.specs.declared.change.Change.{Change};
    ghost use Rattle.sv_watch.specs.Mirror.{mirrored};

    ghost Value = { List Change };

    ghost view = { λ mirror. mirror.heard.items };

    ghost invariant = { λ mirror. mirror.replica ≡ mirrored mirror.heard.items };
}

impl Mirror {
    /// A mirror that has heard nothing, of the page with nothing on it.
    pub fn new(alloc: Global) -> Result<Mirror, NoMemory>
        ensures { IfOk result (λ mirror. mirror ≡ []) }
    {
        let replica = Replica::new(alloc)?;
        Ok(Mirror {
            heard: Vec::new(alloc),
            replica,
        })
    }

    /// Whether the change fits the page that the mirror shows: the nodes that it names are there and are of the kind that the change is
    /// for, and the place that it names is there.
    pub fn fits(&self, change: &Change) -> bool
        ensures { result ≡ spec.fits change.now (mirrored self.now) }
    {
        self.replica.fits(change)
    }

    // Hears the change, or stays as it was.
    fn hear(&mut self, change: &Change) -> Result<(), NoMemory>
        ensures heard { OnOk result (self.new ≡ self.old ++ change.now ∷ []) }
        ensures kept { OnErr result (self.new ≡ self.old) }
    {
        let copy = copy_of(change)?;
        self.heard.push(copy)?;
        if let Err(NoMemory) = self.replica.apply(change) {
            self.heard.pop();
            return Err(NoMemory);
        }
        Ok(())
    }
}

impl Watcher for Mirror {
    ghost use Rattle.std.specs.Prelude.{◌≡◌, ◌++◌, ◌∷◌, [], false, IfOk, OnOk, OnErr};
    ghost use Rattle.sv_tokens.specs.Token.{Page as Tokens};
    ghost use Rattle.sv_tokens.specs.Seen.{view_of};
    ghost use Rattle.sv_html.specs.Html.{html};
    ghost use Rattle.sv_watch.specs.Mirror.{mirrored, mirror_html};
    ghost use Rattle.sv_watch.specs.declared.watcher.TellError.TheVariants as errors;

    ghost heard = { λ mirror. mirror };

    ghost faults = { λ _. 0 };

    ghost report_of = { λ _. mirror_html };

    fn tell(&mut self, change: &Change) -> Result<(), TellError>
        ensures heard { OnOk result (self.new ≡ self.old ++ change.now ∷ []) }
        ensures kept { OnErr result (self.new ≡ self.old) }
        ensures wants { OnErr result (result ≡ Err TellError.NoMemory) }
    {
        self.hear(change)?;
        Ok(())
    }

    /// The text of the page that the changes lead to: of any page that is seen so.
    fn report(&self, alloc: Global) -> Result<Vec<u8>, NoMemory>
        ensures text { IfOk result (λ bytes. bytes.items ≡ mirror_html self.now) }
        ensures page { IfOk result (λ bytes. (page : Tokens) → view_of page ≡ mirrored self.now → bytes.items ≡ html false page.tokens) }
    {
        self.replica.html(alloc)
    }
}
