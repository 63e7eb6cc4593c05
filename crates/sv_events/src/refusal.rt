// Why there are no events.
ghost use Rattle.std.specs.Prelude.{◌≡◌};
ghost use Rattle.sv_events.specs.declared.refusal.EventsError.TheVariants.{NoMemory as OutOfMemory};

use std::alloc::{AllocError, AllocFailed};
use sv_base::NoMemory;
use thiserror::Error;

/// What is answered in place of the events or steps of a file. Where a file gives cause for two, the one that stands first here comes.
#[derive(Clone, Copy, Debug, PartialEq, Eq, Error)]
pub enum EventsError {
    /// The bytes are no JSON.
    #[error("NotJson")]
    NotJson,
    /// The JSON is no object with a version that is read here and a list of events or steps, and nothing else.
    #[error("BadForm")]
    BadForm,
    /// There are more than `EVENT_LIMIT` of them.
    #[error("TooMany")]
    TooMany,
    /// The one with this number, from 0, is the first that has not the form of one.
    #[error("BadShape {0}")]
    BadShape(u32),
    #[error("out of memory")]
    NoMemory,
}

impl From<NoMemory> for EventsError {
    ghost from_gives = { λ _ error. error ≡ OutOfMemory };

    fn from(_: NoMemory) -> EventsError {
        EventsError::NoMemory
    }
}

impl<T: Drop> From<AllocFailed<T>> for EventsError {
    ghost from_gives = { λ _ error. error ≡ OutOfMemory };

    fn from(_: AllocFailed<T>) -> EventsError {
        EventsError::NoMemory
    }
}
