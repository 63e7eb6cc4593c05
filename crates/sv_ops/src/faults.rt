// How operations and evaluations are refused.
ghost use Rattle.std.specs.Prelude.{◌≡◌};
ghost use Rattle.sv_ops.specs.declared.faults.OpError.TheVariants.{NoMemory as OutOfMemory};

use std::alloc::{AllocError, AllocFailed};
use sv_base::{NoMemory, Span};
use thiserror::Error;

/// Why code can't go on. Where one operation could give two, the one that stands first here comes.
#[derive(Clone, Copy, Debug, PartialEq, Eq, Error)]
pub enum FaultKind {
    #[error("NotAFunction")]
    NotAFunction,
    #[error("NoMember")]
    NoMember,
    #[error("NotANumber")]
    NotANumber,
    #[error("Range")]
    Range,
    #[error("ZeroDivisor")]
    ZeroDivisor,
    #[error("CompareObjects")]
    CompareObjects,
    #[error("NotText")]
    NotText,
    #[error("BadKey")]
    BadKey,
    #[error("NotAList")]
    NotAList,
    #[error("UseBeforeInit")]
    UseBeforeInit,
    #[error("NotAStore")]
    NotAStore,
    #[error("Dead")]
    Dead,
    #[error("Deep")]
    Deep,
    #[error("Large")]
    Large,
    #[error("Steps")]
    Steps,
    #[error("CallDepth")]
    CallDepth,
    #[error("TreeDepth")]
    TreeDepth,
}

/// A fault with its place.
#[derive(Clone, Copy, Debug, PartialEq, Eq)]
pub struct Fault {
    pub kind: FaultKind,
    pub span: Span,
}

/// What an operation answers in place of a value.
#[derive(Clone, Copy, Debug, PartialEq, Eq, Error)]
pub enum OpError {
    #[error("{0}")]
    Fault(FaultKind),
    #[error("out of memory")]
    NoMemory,
}

impl From<NoMemory> for OpError {
    ghost from_gives = { λ _ error. error ≡ OutOfMemory };

    fn from(_: NoMemory) -> OpError {
        OpError::NoMemory
    }
}

impl From<AllocError> for OpError {
    ghost from_gives = { λ _ error. error ≡ OutOfMemory };

    fn from(_: AllocError) -> OpError {
        OpError::NoMemory
    }
}

impl<T: Drop> From<AllocFailed<T>> for OpError {
    ghost from_gives = { λ _ error. error ≡ OutOfMemory };

    fn from(_: AllocFailed<T>) -> OpError {
        OpError::NoMemory
    }
}
