// What a stream tells.
ghost use Rattle.std.specs.Prelude.{◌≡◌};
ghost use Rattle.sv_wire.specs.Stream.{is_end};

use sv_tokens::Change;

/// The most bytes that a text of an item may have.
pub const LONGEST_TEXT: usize = 16_777_216;

/// What a stream tells: a change of the page, that a turn ended, with a target or without one, or that the stream ends.
#[derive(Drop)]
pub enum Item {
    Change(Change),
    Turn { target: bool },
    End,
}

impl Item {
    // Whether it is the last of its stream.
    pub(crate) fn is_end(&self) -> bool
        ensures { result ≡ is_end self.now }
    {
        matches!(self, Item::End)
    }
}

/// An item, and the offset of its first byte in the stream.
#[derive(Drop)]
pub struct Placed {
    pub at: u64,
    pub item: Item,
}
