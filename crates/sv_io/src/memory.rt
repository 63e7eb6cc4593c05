// A shelf and a sink in memory, whose calls fail by a list.
ghost use Rattle.std.specs.Prelude.{◌≡◌, ◌<◌, ◌≤◌, ◌^◌, ◌↔◌, [], ◌++◌, true, IsTrue, min, take, length, IfOk, OnOk, OnErr, option_copied};
ghost use Rattle.sv_io.specs.Faults.{Rose};
ghost use Rattle.sv_io.specs.Files.{find_file};
ghost use Rattle.sv_io.specs.Memory.{files_of, is_listed};

use crate::{Got, Shelf, ShelfError, Sink, SinkError};
use std::alloc::{AllocError, Global};
use std::marker::Model;
use sv_base::NoMemory;

/// Files in memory, which are always told. Of two files of one name the first counts. The calls that `fail` lists
/// fail, counted from 1.
#[derive(Drop)]
pub struct MemShelf {
    files: Vec<(String, Vec<u8>)>,
    fail: Vec<u32>,
    calls: u64,
}

impl Model for MemShelf {
    ghost use Rattle.sv_io.specs.Memory.{ShelfState, files_of};

    ghost Value = { ShelfState };

    ghost view = { λ s. record { files = files_of s.files.items; fail = s.fail.items; calls = s.calls } };
}

impl MemShelf {
    /// A shelf with these files, on which no call was made yet.
    pub fn new(files: Vec<(String, Vec<u8>)>, fail: Vec<u32>) -> MemShelf
        ensures { result ≡ record { files = files_of files.items; fail = fail.items; calls = 0 } }
    {
        MemShelf {
            files,
            fail,
            calls: 0,
        }
    }
}

// Whether the list has that call.
fn lists(fail: &[u32], call: u64) -> bool
    ensures listed { result ≡ is_listed fail.now call }
    ensures small { IsTrue result → call < 2 ^ 32 }
{
    fail.iter().any(|listed| u64::from(*listed) == call)
}

// The bytes of the first file of that name.
fn bytes_of<'a>(files: &'a [(String, Vec<u8>)], name: &str) -> Option<&'a [u8]>
    ensures { option_copied result ≡ find_file (files_of files.now) name.now }
{
    for file in files {
        if file.0.as_str() == name {
            return Some(file.1.as_slice());
        }
    }
    None
}

impl Shelf for MemShelf {
    ghost use Rattle.std.specs.Prelude.{Some};
    ghost use Rattle.sv_io.specs.Memory.{is_listed, listed_up_to, next_call};
    ghost use Rattle.sv_io.specs.Shelf.{IsGot, IsWithin};

    ghost files = { λ s. Some s.files };

    // The number of the calls so far that the list has.
    ghost faults = { λ s. listed_up_to s.fail s.calls };

    fn read(&mut self, alloc: Global, name: &str, limit: usize) -> Result<Got, ShelfError>
        ensures got { IfOk result (IsGot self.old.files name.now limit) }
        ensures within { IfOk result (IsWithin limit) }
        ensures fails { (result ≡ Err ShelfError.Failed) ↔ (is_listed self.old.fail (next_call self.old.calls) ≡ true) }
        ensures counted { self.new ≡ record self.old { calls = next_call self.old.calls } }
        ensures same { Some self.new.files ≡ Some self.old.files }
        ensures later { listed_up_to self.old.fail self.old.calls ≤ listed_up_to self.new.fail self.new.calls }
        ensures failed { result ≡ Err ShelfError.Failed → Rose (listed_up_to self.old.fail self.old.calls) (listed_up_to self.new.fail self.new.calls) }
    {
        self.calls = self.calls.saturating_add(1);
        if lists(&self.fail, self.calls) {
            return Err(ShelfError::Failed);
        }
        let Some(bytes) = bytes_of(&self.files, name) else {
            return Ok(Got::Missing);
        };
        if bytes.len() > limit {
            return Ok(Got::TooLong);
        }
        match bytes.to_vec(alloc) {
            Ok(bytes) => Ok(Got::Bytes(bytes)),
            Err(AllocError) => Err(ShelfError::NoMemory),
        }
    }
}

/// Output in memory, which is always told. One write takes `take` bytes, or the whole piece where that is shorter.
/// The calls with a piece that isn't empty are counted from 1, and those that `fail` lists fail.
#[derive(Drop)]
pub struct MemSink {
    written: Vec<u8>,
    take: usize,
    fail: Vec<u32>,
    calls: u64,
}

impl Model for MemSink {
    ghost use Rattle.std.specs.Prelude.{◌<◌};
    ghost use Rattle.sv_io.specs.Memory.{SinkState};

    ghost Value = { SinkState };

    ghost view = { λ s. record { written = s.written.items; take = s.take; fail = s.fail.items; calls = s.calls } };

    ghost invariant = { λ s. 0 < s.take };
}

impl MemSink {
    /// An empty sink, on which no call was made yet.
    pub fn new(alloc: Global, take: usize, fail: Vec<u32>) -> Result<MemSink, NoMemory>
        requires { 0 < take }
        ensures { IfOk result (λ sink. sink ≡ record { written = []; take = take; fail = fail.items; calls = 0 }) }
    {
        Ok(MemSink {
            written: Vec::new(alloc),
            take,
            fail,
            calls: 0,
        })
    }

    /// What was written.
    pub fn written(&self) -> &[u8]
        ensures { result.now ≡ self.now.written }
    {
        &self.written
    }
}

impl Sink for MemSink {
    ghost use Rattle.std.specs.Prelude.{Some};
    ghost use Rattle.sv_io.specs.Memory.{is_listed, listed_up_to, next_call};
    ghost use Rattle.sv_io.specs.Sink.{with_bytes};

    ghost written = { λ s. Some s.written };

    // The number of the calls so far that the list has.
    ghost faults = { λ s. listed_up_to s.fail s.calls };

    fn write(&mut self, bytes: &[u8]) -> Result<usize, SinkError>
        ensures same { bytes.now ≡ [] → self.new ≡ self.old }
        ensures took { IfOk result (λ n. n ≡ min self.old.take (length bytes.now)) }
        ensures wrote { IfOk result (λ n. 0 < n → self.new ≡ record self.old { written = self.old.written ++ take n bytes.now; calls = next_call self.old.calls }) }
        ensures kept { OnErr result (self.new ≡ record self.old { calls = next_call self.old.calls }) }
        ensures fails { (result ≡ Err SinkError.Failed) ↔ ((0 < length bytes.now) × (is_listed self.old.fail (next_call self.old.calls) ≡ true)) }
        ensures appended { IfOk result (λ n. Some self.new.written ≡ with_bytes (Some self.old.written) (take n bytes.now)) }
        ensures some { IfOk result (λ n. 0 < length bytes.now → 0 < n) }
        ensures empty { bytes.now ≡ [] → result ≡ Ok 0 }
        ensures bound { IfOk result (λ n. n ≤ length bytes.now) }
        ensures refused { OnErr result (Some self.new.written ≡ Some self.old.written) }
        ensures later { listed_up_to self.old.fail self.old.calls ≤ listed_up_to self.new.fail self.new.calls }
        ensures failed { result ≡ Err SinkError.Failed → Rose (listed_up_to self.old.fail self.old.calls) (listed_up_to self.new.fail self.new.calls) }
    {
        if bytes.is_empty() {
            return Ok(0);
        }
        self.calls = self.calls.saturating_add(1);
        if lists(&self.fail, self.calls) {
            return Err(SinkError::Failed);
        }
        let count = self.take.min(bytes.len());
        match self.written.extend_from_slice(&bytes[..count]) {
            Ok(()) => Ok(count),
            Err(AllocError) => Err(SinkError::NoMemory),
        }
    }
}
