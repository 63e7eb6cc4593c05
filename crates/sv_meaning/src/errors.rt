// How an evaluation is refused.
ghost use Rattle.std.specs.Prelude.{◌≡◌};
ghost use Rattle.sv_meaning.specs.declared.errors.EvalError.TheVariants.{NoMemory as OutOfMemory};

use std::alloc::{AllocError, AllocFailed};
use sv_base::NoMemory;
use sv_ops::Fault;
use thiserror::Error;

/// What code answers in place of a value.
#[derive(Clone, Copy, Debug, PartialEq, Eq, Error)]
pub enum EvalError {
    #[error("{}", .0.kind)]
    Fault(Fault),
    #[error("out of memory")]
    NoMemory,
}

impl From<NoMemory> for EvalError {
    ghost from_gives = { λ _ error. error ≡ OutOfMemory };

    fn from(_: NoMemory) -> EvalError {
        EvalError::NoMemory
    }
}

impl From<AllocError> for EvalError {
    ghost from_gives = { λ _ error. error ≡ OutOfMemory };

    fn from(_: AllocError) -> EvalError {
        EvalError::NoMemory
    }
}

impl<T: Drop> From<AllocFailed<T>> for EvalError {
    ghost from_gives = { λ _ error. error ≡ OutOfMemory };

    fn from(_: AllocFailed<T>) -> EvalError {
        EvalError::NoMemory
    }
}
