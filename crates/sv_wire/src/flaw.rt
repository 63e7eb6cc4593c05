// Why an item isn't read.
ghost use Rattle.std.specs.Prelude.{◌≡◌};
ghost use Rattle.sv_wire.specs.declared.flaw.ReadError.TheVariants.{NoMemory as wants_memory};

use sv_base::NoMemory;

/// What is wrong with the bytes at the front.
#[derive(Clone, Copy, Debug, PartialEq, Eq)]
pub enum Flaw {
    /// They are less than an item: before so many more bytes there is nothing more to say.
    Wants(usize),
    /// However they go on, they begin no item.
    Wrong,
}

/// Why there is no item.
#[derive(Clone, Copy, Debug, PartialEq, Eq)]
pub enum ReadError {
    NoMemory,
    Flaw(Flaw),
}

impl From<NoMemory> for ReadError {
    ghost from_gives = { λ _ error. error ≡ wants_memory };

    fn from(_: NoMemory) -> ReadError {
        ReadError::NoMemory
    }
}
