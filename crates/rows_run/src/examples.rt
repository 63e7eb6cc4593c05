// The examples: folders with files, the words that they are run with, and what is printed then; and their tests.
use crate::runs::list;
use std::alloc::Global;
use sv_base::NoMemory;
use sv_io::{DirShelf, Got, MemShelf, MemSink, Shelf};
use sv_run::run;

/// What the example of a name prints, where it is run over some of its files: `as expected`, or else what it is.
pub fn printed(rt: &HostRuntime, name: &str, files: &str) -> Result<String, NoMemory> {
    let mut folder = DirShelf::new(rt.clone()?);
    let words = words_of(rt.alloc(), &mut folder, name)?;
    played(rt.alloc(), &mut folder, name, files, &words)
}

/// The same of its test, whose steps are in `test.json`, and of which `tested.txt` says what is printed.
pub fn tested(rt: &HostRuntime, name: &str, files: &str) -> Result<String, NoMemory> {
    let mut folder = DirShelf::new(rt.clone()?);
    let words = list(rt.alloc(), "test App.svelte test.json")?;
    played(rt.alloc(), &mut folder, name, files, &words)
}

// What the words print over some of its files.
fn played<S: Shelf>(
    alloc: Global,
    folder: &mut S,
    name: &str,
    files: &str,
    words: &[String],
) -> Result<String, NoMemory> {
    let mut given = Vec::new(alloc);
    for file in files.split_whitespace() {
        let bytes = bytes_of(alloc, folder, name, file)?;
        given.push((String::from_str(alloc, file)?, bytes))?;
    }
    let expected = bytes_of(alloc, folder, name, expected_by(words))?;
    let mut shelf = MemShelf::new(given, Vec::new(alloc));
    let mut sink = MemSink::new(alloc, usize::MAX, Vec::new(alloc))?;
    let _status = run(alloc, words, &mut shelf, &mut sink);
    compared(alloc, sink.written(), &expected)
}

// The file that says what is to be printed.
fn expected_by(words: &[String]) -> &'static str {
    match words {
        [command, ..] if command.as_str() == "test" => "tested.txt",
        _ => "expected.txt",
    }
}

fn compared(alloc: Global, written: &[u8], expected: &[u8]) -> Result<String, NoMemory> {
    if written == expected {
        return Ok(String::from_str(alloc, "as expected")?);
    }
    Ok(String::from_utf8_lossy(alloc, written)?)
}

// The bytes of a file of an example; none where it can't be read.
fn bytes_of<S: Shelf>(
    alloc: Global,
    folder: &mut S,
    name: &str,
    file: &str,
) -> Result<Vec<u8>, NoMemory> {
    let path = format!(in alloc; "examples/{name}/{file}")?;
    match folder.read(alloc, path.as_str(), 1_000_000) {
        Ok(Got::Bytes(bytes)) => Ok(bytes),
        _ => Ok(Vec::new(alloc)),
    }
}

fn words_of<S: Shelf>(alloc: Global, folder: &mut S, name: &str) -> Result<Vec<String>, NoMemory> {
    let bytes = bytes_of(alloc, folder, name, "words")?;
    let line = String::from_utf8_lossy(alloc, &bytes)?;
    list(alloc, line.as_str())
}
