// Pages, turn by turn.
use crate::events::file_of;
use std::alloc::Global;
use sv_base::NoMemory;
use sv_io::{MemShelf, MemSink};
use sv_run::run;

/// What a run of the files of a row writes, with flags.
pub fn turns(alloc: Global, flags: &str, row: &str) -> Result<String, NoMemory> {
    let words = words(alloc, flags)?;
    let mut shelf = MemShelf::new(files(alloc, row)?, Vec::new(alloc));
    let mut sink = MemSink::new(alloc, 4096, Vec::new(alloc))?;
    run(alloc, &words, &mut shelf, &mut sink);
    Ok(String::from_utf8_lossy(alloc, sink.written())?)
}

fn words(alloc: Global, flags: &str) -> Result<Vec<String>, NoMemory> {
    let line = format!(in alloc; "run App.svelte e.json {flags}")?;
    let mut words = Vec::new(alloc);
    for word in line.split_whitespace() {
        words.push(String::from_str(alloc, word)?)?;
    }
    Ok(words)
}

// The files of a row, and the one of its events. Behind them stands one without events: of two files of one name the first counts.
fn files(alloc: Global, row: &str) -> Result<Vec<(String, Vec<u8>)>, NoMemory> {
    let mut files = Vec::new(alloc);
    for piece in row.split(" | ") {
        add_piece(alloc, &mut files, piece)?;
    }
    add_piece(alloc, &mut files, "> ")?;
    Ok(files)
}

fn add_piece(
    alloc: Global,
    files: &mut Vec<(String, Vec<u8>)>,
    piece: &str,
) -> Result<(), NoMemory> {
    if let Some(list) = piece.strip_prefix("> ") {
        let events = file_of(alloc, list)?;
        return add_file(alloc, files, "e.json", events.as_bytes());
    }
    let (name, text) = piece.split_once(": ").unwrap_or((piece, ""));
    add_file(alloc, files, name, text.as_bytes())
}

/// Adds a file to those of a shelf.
pub fn add_file(
    alloc: Global,
    files: &mut Vec<(String, Vec<u8>)>,
    name: &str,
    bytes: &[u8],
) -> Result<(), NoMemory> {
    let name = String::from_str(alloc, name)?;
    Ok(files.push((name, Vec::from_slice(alloc, bytes)?))?)
}
