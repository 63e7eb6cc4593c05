// Named files that are read.
ghost use Rattle.std.specs.Prelude.{◌≡◌, ◌≤◌, ℕ, List, Option, IfOk, IfSome};
ghost use Rattle.sv_io.specs.Faults.{Rose};
ghost use Rattle.sv_io.specs.Shelf.{IsGot, IsWithin};

use std::alloc::{AllocError, Global};
use sv_base::NoMemory;
use thiserror::Error;

/// What a shelf has under a name.
#[derive(Drop)]
pub enum Got {
    /// The bytes of the file.
    Bytes(Vec<u8>),
    /// There is no file of that name.
    Missing,
    /// The file has more bytes than were asked for.
    TooLong,
}

/// Why a file was not read.
#[derive(Clone, Copy, Debug, PartialEq, Eq, Error)]
pub enum ShelfError {
    #[error("a file could not be read")]
    Failed,
    #[error("out of memory")]
    NoMemory,
}

impl From<NoMemory> for ShelfError {
    ghost use Rattle.std.specs.Prelude.{◌≡◌};
    ghost use Rattle.sv_io.specs.declared.shelf.ShelfError.TheVariants as errors;

    ghost from_gives = { λ _ error. error ≡ errors.NoMemory };

    fn from(_: NoMemory) -> ShelfError {
        ShelfError::NoMemory
    }
}

impl From<AllocError> for ShelfError {
    ghost use Rattle.std.specs.Prelude.{◌≡◌};
    ghost use Rattle.sv_io.specs.declared.shelf.ShelfError.TheVariants as errors;

    ghost from_gives = { λ _ error. error ≡ errors.NoMemory };

    fn from(_: AllocError) -> ShelfError {
        ShelfError::NoMemory
    }
}

/// A source of named files, which do not change.
pub trait Shelf {
    /// The files by name, where they are told.
    ghost files: { Self → Option (List (List ℕ × List ℕ)) };

    /// How many reads have failed so far.
    ghost faults: { Self → ℕ };

    /// The file of that name, if it has at most `limit` bytes. A read fails only where the count of faults rises.
    fn read(&mut self, alloc: Global, name: &str, limit: usize) -> Result<Got, ShelfError>
        ensures got { IfOk result (λ got. IfSome (files self.old) (λ files. IsGot files name.now limit got)) }
        ensures within { IfOk result (IsWithin limit) }
        ensures same { files self.new ≡ files self.old }
        ensures later { faults self.old ≤ faults self.new }
        ensures failed { result ≡ Err ShelfError.Failed → Rose (faults self.old) (faults self.new) };
}
