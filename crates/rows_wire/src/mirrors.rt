// What is printed of streams.
use std::alloc::{AllocError, Global};
use std::str;
use sv_base::NoMemory;
use sv_io::{MemSink, SinkError};
use sv_mirror::{StreamFault, mirror};
use sv_rows::push_part;

/// All that is printed of a stream, and the answer.
pub fn mirrored(alloc: Global, bytes: &[u8]) -> Result<String, NoMemory> {
    printed(alloc, bytes, Vec::new(alloc))
}

/// What is printed of it where the third write fails.
pub fn broken(alloc: Global, bytes: &[u8]) -> Result<String, NoMemory> {
    printed(alloc, bytes, vec![in alloc; 3]?)
}

/// What is printed of each front of the bytes, behind its length, where that isn't what is printed of the one before.
pub fn fronts(alloc: Global, bytes: &[u8]) -> Result<String, NoMemory> {
    let mut all = String::new(alloc);
    let mut last = String::new(alloc);
    for end in 0..bytes.len() + 1 {
        let text = mirrored(alloc, &bytes[..end])?;
        if text.as_str() != last.as_str() {
            let told = format!(in alloc; "{end} {}", text.as_str())?;
            push_part(&mut all, "; ", told.as_str())?;
        }
        last = text;
    }
    Ok(all)
}

// What is written to a sink that takes eight bytes at a time, whose writes fail by a list.
fn printed(alloc: Global, bytes: &[u8], fail: Vec<u32>) -> Result<String, NoMemory> {
    let mut sink = MemSink::new(alloc, 8, fail)?;
    let answer = mirror(alloc, bytes, &mut sink);
    let written = str::from_utf8(sink.written()).unwrap_or("no text");
    let mut all = String::from_str(alloc, written)?;
    push_part(&mut all, " | ", told(alloc, answer)?.as_str())?;
    Ok(all)
}

fn told(
    alloc: Global,
    answer: Result<Option<StreamFault>, SinkError>,
) -> Result<String, AllocError> {
    match answer {
        Ok(fault) => format!(in alloc; "{fault:?}"),
        Err(error) => format!(in alloc; "{error:?}"),
    }
}
