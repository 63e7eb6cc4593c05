// A watcher of this program's own.
use std::alloc::Global;
use sv_base::NoMemory;
use sv_list::Items;
use sv_tokens::Change;
use sv_watch::{TellError, Watcher, copy_of};

/// A watcher that reports how many changes it has heard, and refuses all from the one on that comes when it has heard so many.
#[derive(Drop)]
pub struct Tally {
    heard: Items<Change>,
    most: usize,
    refused: u64,
}

impl Tally {
    /// A watcher that has heard nothing.
    pub fn new(alloc: Global, most: u32) -> Tally {
        Tally {
            heard: Items::new(alloc),
            most: most as usize,
            refused: 0,
        }
    }
}

impl Watcher for Tally {
    ghost use Rattle.std.specs.Prelude.{length, decimal};

    ghost heard = { λ tally. tally.heard };

    ghost faults = { λ tally. tally.refused };

    ghost report_of = { λ _ heard. decimal (length heard) };

    fn tell(&mut self, change: &Change) -> Result<(), TellError> {
        if self.heard.len() >= self.most {
            self.refused = self.refused.saturating_add(1);
            return Err(TellError::Refused);
        }
        let copy = copy_of(change)?;
        self.heard.push(copy)?;
        Ok(())
    }

    fn report(&self, alloc: Global) -> Result<Vec<u8>, NoMemory> {
        let digits = self.heard.len().to_string(alloc)?;
        Ok(digits.into_bytes())
    }
}
