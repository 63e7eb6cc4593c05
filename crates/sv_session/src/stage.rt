// How far a session is, and what its turns answer.
ghost use Rattle.std.specs.Prelude.{◌≡◌};
ghost use Rattle.sv_session.specs.declared.stage.TurnError.TheVariants.{NoMemory as OutOfMemory};

use sv_base::NoMemory;
use sv_parts::{PatchError, Refusal};
use thiserror::Error;

/// How far a session is.
#[derive(Clone, Copy, Debug, PartialEq, Eq)]
pub enum Stage {
    /// Nothing is on the page yet.
    New,
    /// The page waits for an event.
    Running,
    /// A turn was refused; no further one is played.
    Stopped,
}

/// What is told of a turn: whether there was an element for its event, how many expressions of markup were evaluated for the page, those
/// of `on:` not among them, and how many instances and subscriptions to stores there are now. The first turn has no event, and counts as
/// one that had an element for it.
#[derive(Clone, Copy, Debug, PartialEq, Eq)]
pub struct Turned {
    pub target: bool,
    pub evaluations: u64,
    pub instances: u64,
    pub subscriptions: u64,
}

/// What is answered in place of a turn.
#[derive(Debug, PartialEq, Eq, Drop, Error)]
pub enum TurnError {
    /// The turn was refused in the middle.
    #[error("the turn is refused")]
    Refused(Refusal),
    /// The page isn't running, and nothing was done.
    #[error("the page is stopped")]
    Stopped,
    #[error("out of memory")]
    NoMemory,
}

impl From<NoMemory> for TurnError {
    ghost from_gives = { λ _ error. error ≡ OutOfMemory };

    fn from(_: NoMemory) -> TurnError {
        TurnError::NoMemory
    }
}

impl From<PatchError> for TurnError {
    ghost use Rattle.sv_session.specs.Errors.{of_patch};

    ghost from_gives = { λ error given. given ≡ of_patch error };

    fn from(error: PatchError) -> TurnError {
        match error {
            PatchError::Refused(refusal) => TurnError::Refused(refusal),
            PatchError::NoMemory => TurnError::NoMemory,
        }
    }
}
