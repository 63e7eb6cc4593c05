// The files of a row, and how reads and writes go: pieces `NAME: BYTES` with ` | ` between, of which three names are no files.
use bstr::ByteSlice;
use std::alloc::Global;
use sv_base::NoMemory;
use sv_io::{MemShelf, MemSink};

/// What a row gives.
#[derive(Drop)]
pub struct Given {
    files: Vec<(String, Vec<u8>)>,
    failing_reads: Vec<u32>,
    failing_writes: Vec<u32>,
    bytes_a_write: usize,
}

impl Given {
    /// What the text of a row gives. A piece `failing reads` or `failing writes` has the numbers of the calls that fail, from 1, and
    /// `bytes a write` how many bytes a write takes.
    pub fn read(alloc: Global, text: &[u8]) -> Result<Given, NoMemory> {
        let mut given = Given {
            files: Vec::new(alloc),
            failing_reads: Vec::new(alloc),
            failing_writes: Vec::new(alloc),
            bytes_a_write: 4096,
        };
        for piece in text.split_str(b" | ") {
            given.add(alloc, piece)?;
        }
        Ok(given)
    }

    fn add(&mut self, alloc: Global, piece: &[u8]) -> Result<(), NoMemory> {
        let (name, bytes) = piece.split_once_str(b":").unwrap_or((piece, b""));
        let bytes = bytes.strip_prefix(b" ").unwrap_or(bytes);
        match name {
            b"failing reads" => push_numbers(alloc, &mut self.failing_reads, bytes),
            b"failing writes" => push_numbers(alloc, &mut self.failing_writes, bytes),
            b"bytes a write" => self.set_bytes_a_write(alloc, bytes),
            b"" => Ok(()),
            _ => self.add_file(alloc, name, bytes),
        }
    }

    fn add_file(&mut self, alloc: Global, name: &[u8], bytes: &[u8]) -> Result<(), NoMemory> {
        let name = String::from_utf8_lossy(alloc, name)?;
        Ok(self.files.push((name, Vec::from_slice(alloc, bytes)?))?)
    }

    fn set_bytes_a_write(&mut self, alloc: Global, bytes: &[u8]) -> Result<(), NoMemory> {
        let word = String::from_utf8_lossy(alloc, bytes)?;
        self.bytes_a_write = word.parse::<usize>().unwrap_or(1);
        Ok(())
    }

    /// A shelf and a sink of that kind.
    pub fn into_shelf_and_sink(self, alloc: Global) -> Result<(MemShelf, MemSink), NoMemory> {
        let Given {
            files,
            failing_reads,
            failing_writes,
            bytes_a_write,
        } = self;
        let sink = MemSink::new(alloc, bytes_a_write.max(1), failing_writes)?;
        Ok((MemShelf::new(files, failing_reads), sink))
    }
}

fn push_numbers(alloc: Global, list: &mut Vec<u32>, bytes: &[u8]) -> Result<(), NoMemory> {
    let words = String::from_utf8_lossy(alloc, bytes)?;
    for word in words.split(' ') {
        list.push(word.parse::<u32>().unwrap_or(0))?;
    }
    Ok(())
}
