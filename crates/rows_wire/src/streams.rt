// What bytes tell.
use crate::words;
use std::alloc::{AllocError, Global};
use sv_base::NoMemory;
use sv_rows::push_part;
use sv_wire::{Placed, Reader, WireError};

/// The items of a stream, and how it stands, where it comes in one piece.
pub fn told(alloc: Global, bytes: &[u8]) -> Result<String, NoMemory> {
    let mut reader = Reader::new(alloc);
    let mut items = Vec::new(alloc);
    let fed = reader.feed(bytes, &mut items);
    written(alloc, &reader, &items, fed)
}

/// The same, where each byte is a piece.
pub fn told_by_bytes(alloc: Global, bytes: &[u8]) -> Result<String, NoMemory> {
    let mut reader = Reader::new(alloc);
    let mut items = Vec::new(alloc);
    let mut fed = Ok(());
    for piece in bytes.chunks(1) {
        fed = reader.feed(piece, &mut items);
    }
    written(alloc, &reader, &items, fed)
}

fn written(
    alloc: Global,
    reader: &Reader,
    items: &[Placed],
    fed: Result<(), WireError>,
) -> Result<String, NoMemory> {
    let mut all = String::new(alloc);
    for placed in items {
        push_part(&mut all, "; ", words::item(alloc, placed)?.as_str())?;
    }
    push_part(&mut all, "; ", stands(alloc, reader, fed)?.as_str())?;
    Ok(all)
}

// How the stream stands.
fn stands(
    alloc: Global,
    reader: &Reader,
    fed: Result<(), WireError>,
) -> Result<String, AllocError> {
    match fed {
        Err(WireError::Bad { at }) => format!(in alloc; "bad {at}"),
        Err(WireError::NoMemory) => String::from_str(alloc, "no memory"),
        Ok(()) => {
            let finished = reader.finished();
            String::from_str(alloc, if finished { "finished" } else { "unfinished" })
        }
    }
}
