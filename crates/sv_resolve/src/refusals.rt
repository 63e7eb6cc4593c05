// Why a program is refused although each of its files has a tree.
use sv_base::{NoMemory, Span};
use thiserror::Error;

/// The kinds of mistakes, in the order in which they are told where two begin at one place. Those from `DeclaredTwice` to
/// `CapturedAssign` are found here.
#[derive(Clone, Copy, Debug, PartialEq, Eq, Error)]
pub enum CheckKind {
    /// Files import one another in a cycle.
    #[error("ImportCycle")]
    ImportCycle,
    /// What is imported isn't there.
    #[error("UnknownImport")]
    UnknownImport,
    /// A name is declared twice in one scope, or `Math` is declared.
    #[error("DeclaredTwice")]
    DeclaredTwice,
    /// A name is declared nowhere, or an import without braces is used otherwise than as a tag.
    #[error("UnknownName")]
    UnknownName,
    /// A constant is assigned.
    #[error("AssignConst")]
    AssignConst,
    /// A name of a function or a row is assigned, which an arrow takes along.
    #[error("CapturedAssign")]
    CapturedAssign,
    /// A store name names no store.
    #[error("BadStore")]
    BadStore,
    /// A function of the life of a component stands where it may not.
    #[error("BadLifecyclePlace")]
    BadLifecyclePlace,
    /// `derived` stands where it may not, or is given no pure function of one parameter.
    #[error("BadDerived")]
    BadDerived,
    /// An expression of markup isn't pure.
    #[error("ImpureMarkup")]
    ImpureMarkup,
    /// A component has no such prop.
    #[error("UnknownProp")]
    UnknownProp,
    /// A component has no such slot, or a slot is given twice.
    #[error("UnknownSlot")]
    UnknownSlot,
    /// A `bind:` has no cell, or stands where it may not.
    #[error("BadBind")]
    BadBind,
    /// A component has too many cells.
    #[error("TooManyNames")]
    TooManyNames,
    /// Reactive statements wait for one another.
    #[error("ReactiveCycle")]
    ReactiveCycle,
}

/// A mistake with its place.
#[derive(Clone, Copy, Debug, PartialEq, Eq)]
pub struct CheckRefusal {
    pub kind: CheckKind,
    pub at: Span,
}

/// What is answered in place of the names of a file.
#[derive(Clone, Copy, Debug, PartialEq, Eq, Error)]
pub enum CheckError {
    #[error("refused")]
    Refused(CheckRefusal),
    #[error("out of memory")]
    NoMemory,
}

impl From<NoMemory> for CheckError {
    ghost use Rattle.std.specs.Prelude.{◌≡◌};
    ghost use Rattle.sv_resolve.specs.declared.refusals.CheckError.TheVariants as error;

    ghost from_gives = { λ _ e. e ≡ error.NoMemory };

    fn from(_: NoMemory) -> CheckError {
        CheckError::NoMemory
    }
}
