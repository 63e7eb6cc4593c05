// A watcher that refuses.
ghost use Rattle.std.specs.Prelude.{◌≡◌, [], false};
ghost use Rattle.sv_watch.specs.Picky.{is_due};

use crate::copy::copy_of;
use crate::{TellError, Watcher};
use std::alloc::Global;
use std::marker::Model;
use sv_base::NoMemory;
use sv_list::Items;
use sv_tokens::Change;

/// A watcher for tests, which refuses one change and reports nothing.
#[derive(Drop)]
pub struct Picky {
    heard: Items<Change>,
    nth: u32,
    refused: bool,
}

impl Model for Picky {
    ghost use Rattle.sv_watch.specs.Picky.{PickyState};

    ghost Value = { PickyState };

    ghost view = { λ picky. record { heard = picky.heard; nth = picky.nth; refused = picky.refused } };
}

impl Picky {
    /// A watcher that refuses, once, the change that comes when it has heard `nth` - 1 of them, and none where `nth` is 0.
    pub fn new(alloc: Global, nth: u32) -> Picky
        ensures { result ≡ record { heard = []; nth = nth; refused = false } }
    {
        Picky {
            heard: Items::new(alloc),
            nth,
            refused: false,
        }
    }

    // Whether it refuses the next change.
    fn is_due(&self) -> bool
        ensures { result ≡ is_due self.now }
    {
        !self.refused && self.heard.len() as u128 + 1 == u128::from(self.nth)
    }
}

impl Watcher for Picky {
    ghost use Rattle.std.specs.Prelude.{◌≡◌, ◌↔◌, ◌++◌, ◌∷◌, [], true, IfOk, OnOk};
    ghost use Rattle.sv_watch.specs.Picky.{is_due, refusals};
    ghost use Rattle.sv_watch.specs.declared.watcher.TellError.TheVariants as errors;

    ghost heard = { λ picky. picky.heard };

    ghost faults = { refusals };

    ghost report_of = { λ _ _. [] };

    fn tell(&mut self, change: &Change) -> Result<(), TellError>
        ensures heard { OnOk result (self.new ≡ record self.old { heard = self.old.heard ++ change.now ∷ [] }) }
        ensures fails { (result ≡ Err TellError.Refused) ↔ (is_due self.old ≡ true) }
        ensures refused { result ≡ Err TellError.Refused → self.new ≡ record self.old { refused = true } }
        ensures wants { result ≡ Err TellError.NoMemory → self.new ≡ self.old }
    {
        if self.is_due() {
            self.refused = true;
            return Err(TellError::Refused);
        }
        let copy = copy_of(change)?;
        self.heard.push(copy)?;
        Ok(())
    }

    fn report(&self, alloc: Global) -> Result<Vec<u8>, NoMemory>
        ensures { IfOk result (λ bytes. bytes.items ≡ []) }
    {
        let _ = &self.heard;
        Ok(Vec::new(alloc))
    }
}
