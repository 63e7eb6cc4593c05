// The present folder and standard output: the trusted edge. They tell nothing of content.
ghost use Rattle.std.specs.Prelude.{IfOk};
ghost use Rattle.sv_io.specs.Shelf.{IsWithin};

use crate::{Got, Shelf, ShelfError, Sink, SinkError};
use std::alloc::Global;
use std::io::{ErrorKind, Read, Write};
use std::rt::Files;
use std::{fs, io};

/// The files of the present folder. A file is missing only where the system says that there is none.
#[derive(Drop)]
pub struct DirShelf<R: Files + Drop> {
    rt: R,
    faults: u64,
}

impl<R: Files + Drop> DirShelf<R> {
    /// The present folder, in which no read has failed yet.
    pub fn new(rt: R) -> DirShelf<R> {
        DirShelf { rt, faults: 0 }
    }
}

// What a source has up to its end, or `TooLong` once there is more than `limit`.
fn read_up_to<S: Read>(alloc: Global, source: &mut S, limit: usize) -> io::Result<Got>
    ensures { IfOk result (IsWithin limit) }
{
    let mut bytes = Vec::new(alloc);
    let mut buffer = [0; 8192];
    loop {
        let count = source.read(&mut buffer)?;
        if count == 0 {
            return Ok(Got::Bytes(bytes));
        }
        if count > limit - bytes.len() {
            return Ok(Got::TooLong);
        }
        bytes.extend_from_slice(&buffer[..count])?;
    }
}

impl<R: Files + Drop> DirShelf<R> {
    // The file of that name, before an error is counted.
    fn load(&self, alloc: Global, name: &str, limit: usize) -> io::Result<Got>
        ensures { IfOk result (IsWithin limit) }
    {
        let mut file = match fs::open(&self.rt, name) {
            Ok(file) => file,
            Err(error) if error.kind() == ErrorKind::NotFound => return Ok(Got::Missing),
            Err(error) => return Err(error),
        };
        read_up_to(alloc, &mut file, limit)
    }
}

impl<R: Files + Drop> Shelf for DirShelf<R> {
    ghost use Rattle.std.specs.Prelude.{None};

    ghost files = { λ _. None };

    ghost faults = { λ s. s.faults };

    fn read(&mut self, alloc: Global, name: &str, limit: usize) -> Result<Got, ShelfError> {
        match self.load(alloc, name, limit) {
            Ok(got) => Ok(got),
            Err(error) if error.kind() == ErrorKind::OutOfMemory => Err(ShelfError::NoMemory),
            Err(_) => {
                self.faults = self.faults.saturating_add(1);
                Err(ShelfError::Failed)
            }
        }
    }
}

/// Standard output. A write that takes nothing of a piece has failed.
#[derive(Drop)]
pub struct StdSink<R: Print + Drop> {
    rt: R,
    faults: u64,
}

impl<R: Print + Drop> StdSink<R> {
    /// Standard output, to which no write has failed yet.
    pub fn new(rt: R) -> StdSink<R> {
        StdSink { rt, faults: 0 }
    }
}

impl<R: Print + Drop> Sink for StdSink<R> {
    ghost use Rattle.std.specs.Prelude.{None};

    ghost written = { λ _. None };

    ghost faults = { λ s. s.faults };

    fn write(&mut self, bytes: &[u8]) -> Result<usize, SinkError> {
        if bytes.is_empty() {
            return Ok(0);
        }
        match io::writer(&self.rt).write(bytes) {
            Ok(count) if count > 0 => Ok(count),
            _ => {
                self.faults = self.faults.saturating_add(1);
                Err(SinkError::Failed)
            }
        }
    }
}
