// A reader of a stream that comes in pieces.
ghost use Rattle.std.specs.Prelude.{◌≡◌, ◌<◌, ◌≤◌, ◌^◌, ◌+◌, ◌-◌, ◌++◌, [], ℕ, List, length, drop, IfOk, OnErr};
ghost use Rattle.sv_wire.specs.declared.item.Placed.{Placed};
ghost use Rattle.sv_wire.specs.Stream.{Begun, behind, stands, told, resumed, is_ended};
ghost use Rattle.sv_wire.specs.Reader.{standing_of, from_part, IsSettled, WantsMore, IfRead, IfWants, answer_of};

use crate::item::Placed;
use crate::state::{Part, State, ending};
use crate::whole::read;
use std::alloc::Global;
use std::marker::Model;
use sv_base::NoMemory;

/// Why a piece is not read to its end.
#[derive(Clone, Copy, Debug, PartialEq, Eq)]
pub enum WireError {
    /// The stream is wrong at this offset.
    Bad { at: u64 },
    NoMemory,
}

impl From<NoMemory> for WireError {
    ghost use Rattle.std.specs.Prelude.{◌≡◌};
    ghost use Rattle.sv_wire.specs.declared.reader.WireError.TheVariants as errors;

    ghost from_gives = { λ _ error. error ≡ errors.NoMemory };

    fn from(_: NoMemory) -> WireError {
        WireError::NoMemory
    }
}

// The bytes of what is unfinished.
#[derive(Drop)]
struct Held {
    alloc: Global,
    bytes: Vec<u8>,
}

/// A reader of a stream that comes in pieces of any size. It keeps the bytes of the one item that is unfinished. A clause sees it as
/// how the stream stands behind the bytes that came so far.
#[derive(Drop)]
pub struct Reader {
    held: Held,
    state: State,
}

impl Model for Reader {
    ghost use Rattle.sv_wire.specs.Stream.{Standing};

    ghost Value = { Standing };

    ghost use Rattle.sv_wire.specs.Reader.{standing_of, IsSettled};

    ghost view = { λ reader. standing_of reader.state reader.held.bytes.items };

    ghost invariant = { λ reader. IsSettled reader.state reader.held.bytes.items };
}

impl Reader {
    /// A reader to which no bytes came.
    pub fn new(alloc: Global) -> Reader
        ensures begun { result ≡ Begun [] }
        ensures told { told [] ≡ stands result }
    {
        Reader {
            held: Held {
                alloc,
                bytes: Vec::new(alloc),
            },
            state: State::Unfinished {
                part: Part::Head,
                needs: 1,
            },
        }
    }

    /// Reads the next piece, and puts the items that end in it at the end of the list. Where the stream is wrong, the items before
    /// were put there, and each later call answers the same. Where memory is wanting, or a number
    /// for an offset, reader and list are as they were.
    pub fn feed(&mut self, piece: &[u8], items: &mut Vec<Placed>) -> Result<(), WireError>
        ensures told { IfRead result (behind items.old.items (resumed self.old piece.now) ≡ behind items.new.items (stands self.new)) }
        // Where the list is what the bytes before told, it is now what all bytes tell.
        ensures whole { IfRead result ((bytes : List ℕ) → told bytes ≡ record { items = items.old.items; standing = self.old }
            → told (bytes ++ piece.now) ≡ record { items = items.new.items; standing = self.new }) }
        // The stream is wrong exactly where its bytes so far are.
        ensures answer { IfRead result (result ≡ answer_of self.new) }
        ensures kept { IfWants result ((self.new ≡ self.old) × (items.new.items ≡ items.old.items)) }
    {
        let state = feed(&mut self.held, self.state, piece, items)?;
        self.state = state;
        answer(state)
    }

    /// Whether the stream ended, and nothing followed.
    pub fn finished(&self) -> bool
        ensures { result ≡ is_ended self.now }
    {
        matches!(self.state, State::Ended { .. })
    }
}

// What a reader answers of how its stream stands.
fn answer(state: State) -> Result<(), WireError>
    ensures { (held : List ℕ) → result ≡ answer_of (standing_of state held) }
{
    match state {
        State::Unfinished { .. } => Ok(()),
        State::Ended { .. } => Ok(()),
        State::Bad { at } => Err(WireError::Bad { at }),
    }
}

// How the stream stands behind the piece.
fn feed(
    held: &mut Held,
    state: State,
    piece: &[u8],
    items: &mut Vec<Placed>,
) -> Result<State, NoMemory>
    requires { IsSettled state held.old.bytes.items }
    ensures told { IfOk result (λ now. behind items.old.items (resumed (standing_of state held.old.bytes.items) piece.now)
        ≡ behind items.new.items (stands (standing_of now held.new.bytes.items))) }
    ensures settled { IfOk result (λ now. IsSettled now held.new.bytes.items) }
    ensures held { OnErr result (held.new.bytes.items ≡ held.old.bytes.items) }
    ensures items { OnErr result (items.new.items ≡ items.old.items) }
{
    match state {
        State::Unfinished { part, needs } => feed_part(held, part, needs, piece, items),
        State::Ended { at } => Ok(ending(at, piece)),
        State::Bad { at } => Ok(State::Bad { at }),
    }
}

// The same of a stream of which a part is unfinished.
fn feed_part(
    held: &mut Held,
    part: Part,
    needs: usize,
    piece: &[u8],
    items: &mut Vec<Placed>,
) -> Result<State, NoMemory>
    requires { WantsMore part held.old.bytes.items (needs - length held.old.bytes.items) }
    ensures told { IfOk result (λ now. behind items.old.items (from_part part (held.old.bytes.items ++ piece.now))
        ≡ behind items.new.items (stands (standing_of now held.new.bytes.items))) }
    ensures settled { IfOk result (λ now. IsSettled now held.new.bytes.items) }
    ensures held { OnErr result (held.new.bytes.items ≡ held.old.bytes.items) }
    ensures items { OnErr result (items.new.items ≡ items.old.items) }
{
    let len = held.bytes.len();
    held.bytes.extend_from_slice(piece)?;
    if held.bytes.len() < needs {
        return Ok(State::Unfinished { part, needs });
    }
    match read(held.alloc, part, &held.bytes, items) {
        Ok((state, used)) => {
            drop_front(&mut held.bytes, used);
            Ok(state)
        }
        Err(NoMemory) => {
            held.bytes.truncate(len);
            Err(NoMemory)
        }
    }
}

// Takes so many bytes from the front.
fn drop_front(bytes: &mut Vec<u8>, count: usize)
    requires { count ≤ length bytes.old.items }
    ensures { bytes.new.items ≡ drop count bytes.old.items }
{
    let rest = bytes.len() - count;
    bytes.rotate_left(count);
    bytes.truncate(rest);
}
