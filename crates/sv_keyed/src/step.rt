// The steps on rows, and why there are none.
ghost use Rattle.std.specs.Prelude.{◌≡◌};
ghost use Rattle.sv_keyed.specs.declared.step.KeyRefusal.TheVariants.{NoMemory as OutOfMemory};

use sv_base::NoMemory;
use sv_value::Key;
use thiserror::Error;

/// One step on a list of rows. `before` is a place in the new list, and `None` stands for the end.
#[derive(Clone, Copy, Debug, PartialEq, Eq)]
pub enum KeyStep {
    /// The row with the key at this place of the old list goes.
    Drop { old: u32 },
    /// A row for the key at this place of the new list is made before another.
    Make { new: u32, before: Option<u32> },
    /// The row with the key at this place of the new list is moved before another.
    Shift { new: u32, before: Option<u32> },
}

/// Why there are no steps.
#[derive(Debug, PartialEq, Eq, Drop, Error)]
pub enum KeyRefusal {
    /// This key stands twice in the new list: it is the first that equals an earlier one.
    #[error("a key stands twice")]
    Duplicate(Key),
    /// There was no memory, or no number left for a place.
    #[error("out of memory")]
    NoMemory,
}

impl From<NoMemory> for KeyRefusal {
    ghost from_gives = { λ _ refusal. refusal ≡ OutOfMemory };

    fn from(_: NoMemory) -> KeyRefusal {
        KeyRefusal::NoMemory
    }
}
