// Why a row has no answer.
use std::alloc::{AllocError, AllocFailed};
use sv_ast::Kind;
use sv_base::NoMemory;
use sv_load::LoadError;
use sv_resolve::{CheckError, CheckKind};
use thiserror::Error;

/// Why a row has no answer.
#[derive(Debug, Drop, Error)]
pub enum Unanswered {
    #[error("no text")]
    NoText,
    #[error("no such kind")]
    Kind,
    #[error("no such file")]
    File,
    #[error("{0}")]
    Unread(Kind),
    #[error("{0:?}")]
    Unclean(CheckKind),
    #[error("out of memory")]
    NoMemory,
}

impl From<LoadError> for Unanswered {
    fn from(error: LoadError) -> Unanswered {
        match error {
            LoadError::Refused { kind, .. } => Unanswered::Unread(kind),
            LoadError::NoMemory => Unanswered::NoMemory,
            _ => Unanswered::File,
        }
    }
}

impl From<CheckError> for Unanswered {
    fn from(error: CheckError) -> Unanswered {
        match error {
            CheckError::Refused(refusal) => Unanswered::Unclean(refusal.kind),
            CheckError::NoMemory => Unanswered::NoMemory,
        }
    }
}

impl From<NoMemory> for Unanswered {
    fn from(_: NoMemory) -> Unanswered {
        Unanswered::NoMemory
    }
}

impl From<AllocError> for Unanswered {
    fn from(_: AllocError) -> Unanswered {
        Unanswered::NoMemory
    }
}

impl<T: Drop> From<AllocFailed<T>> for Unanswered {
    fn from(_: AllocFailed<T>) -> Unanswered {
        Unanswered::NoMemory
    }
}
