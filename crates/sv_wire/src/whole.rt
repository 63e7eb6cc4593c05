// All that bytes tell.
ghost use Rattle.std.specs.Prelude.{◌≡◌, ◌<◌, ◌^◌, ◌≤◌, ◌+◌, length, drop, IsTrue, IfOk, OnErr};
ghost use Rattle.sv_wire.specs.Stream.{told_at, told, begun};
ghost use Rattle.sv_wire.specs.Reader.{Reaches, Grown, counted, from_part};

use crate::flaw::Flaw;
use crate::item::Placed;
use crate::state::{Part, State};
use crate::step::{Step, read_item};
use std::alloc::Global;
use sv_base::NoMemory;

/// What a stream begins with.
pub const HEAD: [u8; 4] = *b"SVW1";

/// No stream is read further than this, so that each offset in it is a `u64`.
const LONGEST_STREAM: u64 = 2_305_843_009_213_693_952;

/// How a stream stands behind bytes of which nothing was told, and how many of them are done with. The items are put at the end
/// of the list, which stays as it was where memory is wanting, or a number for an offset.
pub fn read(
    alloc: Global,
    part: Part,
    bytes: &[u8],
    items: &mut Vec<Placed>,
) -> Result<(State, usize), NoMemory>
    ensures ok { IfOk result (λ r. Reaches (from_part part bytes.now) bytes.now r.0 r.1 items.old.items items.new.items) }
    ensures err { OnErr result (items.new.items ≡ items.old.items) }
{
    if !is_counted(part, bytes.len()) {
        return Err(NoMemory);
    }
    let count = items.len();
    match read_part(alloc, part, bytes, items) {
        Ok(read) => Ok(read),
        Err(NoMemory) => {
            items.truncate(count);
            Err(NoMemory)
        }
    }
}

// Whether the offsets of so many bytes are numbers.
fn is_counted(part: Part, len: usize) -> bool
    ensures { IsTrue result → counted part len < 2 ^ 62 }
{
    match part {
        Part::Head => (len as u64) < LONGEST_STREAM,
        Part::Item(at) => at < LONGEST_STREAM && (len as u64) < LONGEST_STREAM,
    }
}

fn read_part(
    alloc: Global,
    part: Part,
    bytes: &[u8],
    items: &mut Vec<Placed>,
) -> Result<(State, usize), NoMemory>
    requires { counted part (length bytes.now) < 2 ^ 62 }
    ensures ok { IfOk result (λ r. Reaches (from_part part bytes.now) bytes.now r.0 r.1 items.old.items items.new.items) }
    ensures grown { Grown items.old.items items.new.items }
{
    match part {
        Part::Head => read_stream(alloc, bytes, items),
        Part::Item(at) => read_items(alloc, at, 0, bytes, items),
    }
}

// The same of a stream from its head on.
fn read_stream(
    alloc: Global,
    bytes: &[u8],
    items: &mut Vec<Placed>,
) -> Result<(State, usize), NoMemory>
    requires { length bytes.now < 2 ^ 62 }
    ensures ok { IfOk result (λ r. Reaches (told bytes.now) bytes.now r.0 r.1 items.old.items items.new.items) }
    ensures grown { Grown items.old.items items.new.items }
{
    match begins(&HEAD, bytes) {
        Ok(()) => read_items(alloc, 4, 4, bytes, items),
        Err(Flaw::Wants(_)) => {
            let state = State::Unfinished {
                part: Part::Head,
                needs: bytes.len() + 1,
            };
            Ok((state, 0))
        }
        Err(Flaw::Wrong) => Ok((State::Bad { at: 0 }, 0)),
    }
}

// Whether the bytes begin so.
fn begins(start: &[u8], bytes: &[u8]) -> Result<(), Flaw>
    ensures { result ≡ begun start.now bytes.now }
{
    match start {
        [] => Ok(()),
        [first, start @ ..] => match bytes {
            [] => Err(Flaw::Wants(1)),
            [byte, bytes @ ..] => {
                if *byte != *first {
                    return Err(Flaw::Wrong);
                }
                begins(start, bytes)
            }
        },
    }
}

// The same of the items from an offset on, which begin behind the first so many bytes.
fn read_items(
    alloc: Global,
    at: u64,
    done: usize,
    bytes: &[u8],
    items: &mut Vec<Placed>,
) -> Result<(State, usize), NoMemory>
    requires done { done ≤ length bytes.now }
    requires reach { at + length bytes.now < 2 ^ 63 }
    ensures ok { IfOk result (λ r. Reaches (told_at at (drop done bytes.now)) bytes.now r.0 r.1 items.old.items items.new.items) }
    ensures grown { Grown items.old.items items.new.items }
{
    let mut offset = at;
    let mut used = done;
    'items: loop {
        let step = read_item(alloc, offset, &bytes[used..], items)?;
        match step {
            Step::Read(count) => {
                offset += count as u64;
                used += count;
            }
            Step::Stop(state) => return Ok((state, used)),
        }
    }
}
