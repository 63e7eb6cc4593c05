// Why something isn't done.
use sv_base::NoMemory;
use thiserror::Error;

/// Why an instance isn't made.
#[derive(Clone, Copy, Debug, PartialEq, Eq, Error)]
pub enum AddError {
    /// It would be deeper than [`crate::DEPTH_LIMIT`].
    #[error("components nest too deep")]
    TreeDepth,
    /// There was no memory for it, or no number.
    #[error("out of memory")]
    NoMemory,
}

impl From<NoMemory> for AddError {
    ghost use Rattle.std.specs.Prelude.{◌≡◌};
    ghost use Rattle.sv_states.specs.declared.error.AddError.TheVariants.{NoMemory as no_memory};

    ghost from_gives = { λ _ e. e ≡ no_memory };

    fn from(_: NoMemory) -> AddError {
        AddError::NoMemory
    }
}

/// Why a value isn't assigned.
#[derive(Clone, Copy, Debug, PartialEq, Eq, Error)]
pub enum AssignError {
    /// A derived store would be set.
    #[error("a derived store is not set")]
    ReadOnly,
    /// A `$` name would be assigned whose name holds no store, or a variable with a `$` name would take a value that is neither a store nor
    /// `null` nor `undefined`.
    #[error("not a store")]
    NotAStore,
    /// There was no memory for it.
    #[error("out of memory")]
    NoMemory,
}

impl From<NoMemory> for AssignError {
    ghost use Rattle.std.specs.Prelude.{◌≡◌};
    ghost use Rattle.sv_states.specs.declared.error.AssignError.TheVariants.{NoMemory as no_memory};

    ghost from_gives = { λ _ e. e ≡ no_memory };

    fn from(_: NoMemory) -> AssignError {
        AssignError::NoMemory
    }
}
