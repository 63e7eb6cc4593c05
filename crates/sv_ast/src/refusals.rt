// Why there is no tree.
use sv_base::{NoMemory, Span};
use thiserror::Error;

/// Why a text has no tree.
#[derive(Clone, Copy, Debug, PartialEq, Eq, Error)]
pub enum Kind {
    /// The bytes are no UTF-8.
    #[error("NotUtf8")]
    NotUtf8,
    /// The grammar has no such form.
    #[error("Syntax")]
    Syntax,
    /// A tag or a block has no end.
    #[error("Unclosed")]
    Unclosed,
    /// Too many constructs enclose one another, or a chain is too long.
    #[error("TooDeep")]
    TooDeep,
    /// A numeral is wider than a number can be.
    #[error("NumberTooWide")]
    NumberTooWide,
    /// A form of Svelte that is left out by name.
    #[error("OutOfScope")]
    OutOfScope,
}

/// A refusal with its place.
#[derive(Clone, Copy, Debug, PartialEq, Eq)]
pub struct Refused {
    pub kind: Kind,
    pub at: Span,
}

/// What a parser answers in place of a tree.
#[derive(Clone, Copy, Debug, PartialEq, Eq, Error)]
pub enum ParseError {
    #[error("refused")]
    Refused(Refused),
    #[error("out of memory")]
    NoMemory,
}

impl From<NoMemory> for ParseError {
    ghost use Rattle.std.specs.Prelude.{◌≡◌};
    ghost use Rattle.sv_ast.specs.declared.refusals.ParseError.TheVariants as error;

    ghost from_gives = { λ _ e. e ≡ error.NoMemory };

    fn from(_: NoMemory) -> ParseError {
        ParseError::NoMemory
    }
}
