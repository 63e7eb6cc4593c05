// Why a text gives no selector.
ghost use Rattle.std.specs.Prelude.{◌≡◌};
ghost use Rattle.sv_select.specs.declared.refusal.SelectError.TheVariants.{NoMemory as OutOfMemory};

use sv_base::NoMemory;
use thiserror::Error;

/// What is answered in place of a selector.
#[derive(Clone, Copy, Debug, PartialEq, Eq, Error)]
pub enum SelectError {
    /// The text is no selector.
    #[error("BadSelector")]
    BadSelector,
    #[error("out of memory")]
    NoMemory,
}

impl From<NoMemory> for SelectError {
    ghost from_gives = { λ _ error. error ≡ OutOfMemory };

    fn from(_: NoMemory) -> SelectError {
        SelectError::NoMemory
    }
}
