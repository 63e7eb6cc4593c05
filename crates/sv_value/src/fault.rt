// Why a value or its text is not made.
ghost use Rattle.std.specs.Prelude.{◌≡◌};
ghost use Rattle.sv_value.specs.declared.fault.ValueFault.TheVariants.{NoMemory as OutOfMemory};

use std::alloc::{AllocError, AllocFailed};
use sv_base::NoMemory;
use thiserror::Error;

/// Why a value or its text is not made.
#[derive(Clone, Copy, Debug, PartialEq, Eq, Error)]
pub enum ValueFault {
    /// It would nest deeper than [`sv_base::VALUE_DEPTH_LIMIT`].
    #[error("too deep")]
    Deep,
    /// It would be larger than [`sv_base::VALUE_SIZE_LIMIT`].
    #[error("too large")]
    Large,
    /// The value has no text.
    #[error("no text")]
    NotText,
    /// There was no memory.
    #[error("out of memory")]
    NoMemory,
}

impl From<NoMemory> for ValueFault {
    ghost from_gives = { λ _ fault. fault ≡ OutOfMemory };

    fn from(_: NoMemory) -> ValueFault {
        ValueFault::NoMemory
    }
}

impl From<AllocError> for ValueFault {
    ghost from_gives = { λ _ fault. fault ≡ OutOfMemory };

    fn from(_: AllocError) -> ValueFault {
        ValueFault::NoMemory
    }
}

impl<T: Drop> From<AllocFailed<T>> for ValueFault {
    ghost from_gives = { λ _ fault. fault ≡ OutOfMemory };

    fn from(_: AllocFailed<T>) -> ValueFault {
        ValueFault::NoMemory
    }
}
