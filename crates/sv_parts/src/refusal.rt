// Why a patch is refused.
ghost use Rattle.std.specs.Prelude.{◌≡◌};
ghost use Rattle.sv_parts.specs.declared.refusal.PatchError.TheVariants.{NoMemory as OutOfMemory};

use std::alloc::{AllocError, AllocFailed};
use sv_base::{NoMemory, Span};
use sv_ops::Fault;
use sv_value::Key;
use thiserror::Error;

/// What ends a turn in the middle of a patch: a fault of an expression, two rows with one key, with the place of the key's expression, or a row
/// for which no unit of work is left.
#[derive(Debug, PartialEq, Eq, Drop)]
pub enum Refusal {
    Fault(Fault),
    Duplicate { span: Span, key: Key },
    Budget,
}

/// What a patch answers in place of its effects.
#[derive(Debug, PartialEq, Eq, Drop, Error)]
pub enum PatchError {
    #[error("the patch is refused")]
    Refused(Refusal),
    #[error("out of memory")]
    NoMemory,
}

impl From<NoMemory> for PatchError {
    ghost from_gives = { λ _ error. error ≡ OutOfMemory };

    fn from(_: NoMemory) -> PatchError {
        PatchError::NoMemory
    }
}

impl From<AllocError> for PatchError {
    ghost from_gives = { λ _ error. error ≡ OutOfMemory };

    fn from(_: AllocError) -> PatchError {
        PatchError::NoMemory
    }
}

impl<T: Drop> From<AllocFailed<T>> for PatchError {
    ghost from_gives = { λ _ error. error ≡ OutOfMemory };

    fn from(_: AllocFailed<T>) -> PatchError {
        PatchError::NoMemory
    }
}
