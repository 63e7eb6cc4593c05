// Where bytes are written.
ghost use Rattle.std.specs.Prelude.{◌≡◌, ◌<◌, ◌≤◌, ℕ, List, [], Option, length, take, IfOk, OnOk, OnErr};
ghost use Rattle.sv_io.specs.Faults.{Rose};
ghost use Rattle.sv_io.specs.Sink.{with_bytes, AppendsFront};

use sv_base::NoMemory;
use thiserror::Error;

/// Why a piece was not written.
#[derive(Clone, Copy, Debug, PartialEq, Eq, Error)]
pub enum SinkError {
    #[error("the output could not be written")]
    Failed,
    #[error("out of memory")]
    NoMemory,
}

impl From<NoMemory> for SinkError {
    ghost use Rattle.std.specs.Prelude.{◌≡◌};
    ghost use Rattle.sv_io.specs.declared.sink.SinkError.TheVariants as errors;

    ghost from_gives = { λ _ error. error ≡ errors.NoMemory };

    fn from(_: NoMemory) -> SinkError {
        SinkError::NoMemory
    }
}

/// A place that bytes are written to.
pub trait Sink {
    /// What was written, where it is told.
    ghost written: { Self → Option (List ℕ) };

    /// How many writes have failed so far.
    ghost faults: { Self → ℕ };

    /// Appends a prefix of the piece and answers how long it is: at least one byte of a piece that has one, and 0 for an
    /// empty piece, which is never refused. A refusal appends nothing, and a write fails only where the count of faults rises.
    fn write(&mut self, bytes: &[u8]) -> Result<usize, SinkError>
        ensures appended { IfOk result (λ n. written self.new ≡ with_bytes (written self.old) (take n bytes.now)) }
        ensures some { IfOk result (λ n. 0 < length bytes.now → 0 < n) }
        ensures empty { bytes.now ≡ [] → result ≡ Ok 0 }
        ensures bound { IfOk result (λ n. n ≤ length bytes.now) }
        ensures refused { OnErr result (written self.new ≡ written self.old) }
        ensures later { faults self.old ≤ faults self.new }
        ensures failed { result ≡ Err SinkError.Failed → Rose (faults self.old) (faults self.new) };
}

/// Writes the whole piece; an empty one without a call. Each write hands on all that is left of it. A refusal is the
/// sink's own, and leaves a prefix of the piece written. It takes no memory.
pub fn write_all<K: Sink>(sink: &mut K, bytes: &[u8]) -> Result<(), SinkError>
    ensures all { OnOk result (K.written sink.new ≡ with_bytes (K.written sink.old) bytes.now) }
    ensures front { OnErr result (AppendsFront (K.written sink.old) (K.written sink.new) bytes.now) }
    ensures later { K.faults sink.old ≤ K.faults sink.new }
    ensures failed { result ≡ Err SinkError.Failed → Rose (K.faults sink.old) (K.faults sink.new) }
{
    let mut done = 0;
    while done < bytes.len() {
        done += sink.write(&bytes[done..])?;
    }
    Ok(())
}
