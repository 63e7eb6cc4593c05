// What `svp` answers to words and files.
use crate::given::Given;
use std::alloc::Global;
use sv_base::NoMemory;
use sv_run::{Status, run};

/// How a run ends, and what it wrote: words with a space between, and files.
pub fn whole(alloc: Global, words: &str, text: &[u8]) -> Result<String, NoMemory> {
    answer(alloc, words, text, usize::MAX)
}

/// The same with no more than the last 30 bytes.
pub fn end(alloc: Global, words: &str, text: &[u8]) -> Result<String, NoMemory> {
    answer(alloc, words, text, 30)
}

fn answer(alloc: Global, words: &str, text: &[u8], most: usize) -> Result<String, NoMemory> {
    let words = list(alloc, words)?;
    let (mut shelf, mut sink) = Given::read(alloc, text)?.into_shelf_and_sink(alloc)?;
    let status = run(alloc, &words, &mut shelf, &mut sink);
    told(alloc, status, last(sink.written(), most))
}

// No more than so many bytes of the end.
fn last(bytes: &[u8], most: usize) -> &[u8] {
    &bytes[bytes.len().saturating_sub(most)..]
}

fn told(alloc: Global, status: Status, written: &[u8]) -> Result<String, NoMemory> {
    let written = String::from_utf8_lossy(alloc, written)?;
    Ok(format!(in alloc; "{status:?}: {}", written.as_str())?)
}

/// The words of a line.
pub fn list(alloc: Global, words: &str) -> Result<Vec<String>, NoMemory> {
    let mut list = Vec::new(alloc);
    for word in words.split_whitespace() {
        list.push(String::from_str(alloc, word)?)?;
    }
    Ok(list)
}
