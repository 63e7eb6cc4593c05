// One item of a stream.
ghost use Rattle.std.specs.Prelude.{◌≡◌, ◌<◌, ◌≤◌, ◌+◌, ◌^◌, length, drop, Ok, IfOk};
ghost use Rattle.sv_wire.specs.Reading.{item_at};
ghost use Rattle.sv_wire.specs.Reader.{Steps, Grown};

use crate::flaw::{Flaw, ReadError};
use crate::forms::item_of;
use crate::item::{Item, Placed};
use crate::state::{Part, State, ending};
use std::alloc::Global;
use sv_base::NoMemory;

/// What came of the bytes at an offset: an item, which has so many bytes, or no more is read, and the stream stands so.
#[derive(Clone, Copy)]
pub enum Step {
    Read(usize),
    Stop(State),
}

/// Puts the item at an offset at the end of the list, if it is there.
pub fn read_item(
    alloc: Global,
    at: u64,
    bytes: &[u8],
    items: &mut Vec<Placed>,
) -> Result<Step, NoMemory>
    requires { at + length bytes.now < 2 ^ 63 }
    ensures steps { IfOk result (λ step. Steps at bytes.now step items.old.items items.new.items) }
    ensures grown { Grown items.old.items items.new.items }
{
    match item_of(alloc, bytes) {
        Ok((item, count)) => put_item(at, item, count, bytes, items),
        Err(ReadError::Flaw(Flaw::Wants(more))) => Ok(Step::Stop(State::Unfinished {
            part: Part::Item(at),
            needs: bytes.len() + more,
        })),
        Err(ReadError::Flaw(Flaw::Wrong)) => Ok(Step::Stop(State::Bad { at })),
        Err(ReadError::NoMemory) => Err(NoMemory),
    }
}

// Puts an item of so many bytes there.
fn put_item(
    at: u64,
    item: Item,
    count: usize,
    bytes: &[u8],
    items: &mut Vec<Placed>,
) -> Result<Step, NoMemory>
    requires read { item_at bytes.now ≡ Ok (item, drop count bytes.now) }
    requires bound { count ≤ length bytes.now }
    requires reach { at + length bytes.now < 2 ^ 63 }
    ensures steps { IfOk result (λ step. Steps at bytes.now step items.old.items items.new.items) }
    ensures grown { Grown items.old.items items.new.items }
{
    let last = item.is_end();
    items.push(Placed { at, item })?;
    if last {
        return Ok(Step::Stop(ending(at + count as u64, &bytes[count..])));
    }
    Ok(Step::Read(count))
}
