// What is told of a reactive statement, and why there is no order.
ghost use Rattle.std.specs.Prelude.{◌≡◌};
ghost use Rattle.sv_order.specs.declared.reads.OrderError.TheVariants.{NoMemory as OutOfMemory};

use sv_ast::RefList;
use sv_base::NoMemory;
use thiserror::Error;

/// The names that a reactive statement reads and those that it assigns, inside arrows too.
#[derive(Drop)]
pub struct Reads {
    pub reads: RefList,
    pub sets: RefList,
}

/// Why there is no order.
#[derive(Debug, PartialEq, Eq, Drop, Error)]
pub enum OrderError {
    /// Statements, by their places, each of which must run before the next, and the last before the first. It begins with
    /// the first statement that lies on any such cycle.
    #[error("reactive statements wait for one another")]
    Cycle(Vec<u32>),
    /// There was no memory, or no number left for a statement or a name.
    #[error("out of memory")]
    NoMemory,
}

impl From<NoMemory> for OrderError {
    ghost from_gives = { λ _ refusal. refusal ≡ OutOfMemory };

    fn from(_: NoMemory) -> OrderError {
        OrderError::NoMemory
    }
}
