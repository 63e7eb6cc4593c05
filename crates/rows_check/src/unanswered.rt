// Why a row has no answer.
use std::alloc::{AllocError, AllocFailed};
use sv_ast::{Kind, ParseError};
use sv_base::NoMemory;
use sv_resolve::CheckError;
use thiserror::Error;

/// Why a row has no answer.
#[derive(Debug, Drop, Error)]
pub enum Unanswered {
    #[error("no text")]
    NoText,
    #[error("too long")]
    TooLong,
    #[error("more than an expression")]
    More,
    #[error("not one statement")]
    Statements,
    #[error("no such kind")]
    Kind,
    #[error("{0}")]
    Refused(Kind),
    #[error("out of memory")]
    NoMemory,
}

impl From<ParseError> for Unanswered {
    fn from(error: ParseError) -> Unanswered {
        match error {
            ParseError::Refused(refused) => Unanswered::Refused(refused.kind),
            ParseError::NoMemory => Unanswered::NoMemory,
        }
    }
}

impl From<NoMemory> for Unanswered {
    fn from(_: NoMemory) -> Unanswered {
        Unanswered::NoMemory
    }
}

impl From<AllocError> for Unanswered {
    fn from(_: AllocError) -> Unanswered {
        Unanswered::NoMemory
    }
}

impl<T: Drop> From<AllocFailed<T>> for Unanswered {
    fn from(_: AllocFailed<T>) -> Unanswered {
        Unanswered::NoMemory
    }
}
