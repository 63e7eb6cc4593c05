// Why a stream is not followed to its end.
ghost use Rattle.std.specs.Prelude.{◌≡◌, IfOk, string_bytes};
ghost use Rattle.sv_mirror.specs.Faults as spec;

use std::alloc::Global;
use std::fmt;
use sv_base::NoMemory;

/// Why a stream isn't followed to its end. Offsets are in bytes, from the stream's first one, which is 0.
#[derive(Clone, Copy, Debug, PartialEq, Eq)]
pub enum StreamFault {
    /// It has more bytes than whoever reads it takes; `mirror` takes any number, and never answers this.
    TooLong,
    /// The change at this offset doesn't fit the page that those before it made.
    Unfit { at: u64 },
    /// The bytes are wrong from this offset on.
    Bad { at: u64 },
    /// The bytes end before the stream does.
    Cut,
}

impl fmt::Display for StreamFault {
    ghost use Rattle.std.specs.Prelude.{Some};
    ghost use Rattle.sv_mirror.specs.Faults.{fault_text};

    ghost output = { λ fault. Some (fault_text fault) };

    fn fmt<W: fmt::Write>(&self, f: &mut fmt::Formatter<W>) -> fmt::Result {
        match self {
            StreamFault::TooLong => f.write_str("stream: TooLong"),
            StreamFault::Unfit { at } => write!(f, "stream: Unfit {at}"),
            StreamFault::Bad { at } => write!(f, "stream: Bad {at}"),
            StreamFault::Cut => f.write_str("stream: Cut"),
        }
    }
}

/// The line that tells a fault, ended by a line feed: `stream: TooLong`, `stream: Unfit AT`, `stream: Bad AT` or `stream: Cut`.
#[tactic(auto, unfolding(crate::specs::Faults::fault_line))]
pub fn fault_line(alloc: Global, fault: StreamFault) -> Result<String, NoMemory>
    ensures { IfOk result (λ line. string_bytes line ≡ spec.fault_line fault) }
{
    Ok(format!(in alloc; "{fault}\n")?)
}
