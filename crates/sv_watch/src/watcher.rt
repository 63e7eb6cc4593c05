// Who hears of the changes of a page.
ghost use Rattle.std.specs.Prelude.{◌≡◌, ◌≤◌, ◌++◌, ◌∷◌, [], ℕ, List, IfOk, OnOk, OnErr};
ghost use Rattle.sv_io.specs.Faults.{Rose};

use std::alloc::{AllocError, AllocFailed, Global};
use sv_base::NoMemory;
use sv_tokens::Change;
use thiserror::Error;

/// Why a watcher did not hear a change.
#[derive(Clone, Copy, Debug, PartialEq, Eq, Error)]
pub enum TellError {
    #[error("a watcher refused a change")]
    Refused,
    #[error("out of memory")]
    NoMemory,
}

impl From<NoMemory> for TellError {
    ghost use Rattle.std.specs.Prelude.{◌≡◌};
    ghost use Rattle.sv_watch.specs.declared.watcher.TellError.TheVariants as errors;

    ghost from_gives = { λ _ error. error ≡ errors.NoMemory };

    fn from(_: NoMemory) -> TellError {
        TellError::NoMemory
    }
}

/// Whom each change of a page is told.
pub trait Watcher: Drop {
    ghost use Rattle.sv_tokens.specs.declared.change.Change.{Change};

    /// What it has heard so far.
    ghost heard: { Self → List Change };

    /// How many changes it has refused so far.
    ghost faults: { Self → ℕ };

    /// What it reports of changes that it has heard.
    ghost report_of: { Self → List Change → List ℕ };

    /// Hears the change. Where it doesn't, what it has heard stays: it refuses a change only where its count of refusals
    /// rises, and where it finds no memory that count stays too. What it would report of changes stays the same.
    fn tell(&mut self, change: &Change) -> Result<(), TellError>
        ensures heard { OnOk result (heard self.new ≡ heard self.old ++ change.now ∷ []) }
        ensures kept { OnErr result (heard self.new ≡ heard self.old) }
        ensures later { faults self.old ≤ faults self.new }
        ensures failed { result ≡ Err TellError.Refused → Rose (faults self.old) (faults self.new) }
        ensures wants { result ≡ Err TellError.NoMemory → faults self.new ≡ faults self.old }
        ensures same { report_of self.new ≡ report_of self.old };

    /// What it has to say of all that it has heard.
    fn report(&self, alloc: Global) -> Result<Vec<u8>, NoMemory>
        ensures { IfOk result (λ bytes. bytes.items ≡ report_of self.now (heard self.now)) };
}
