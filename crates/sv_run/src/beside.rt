// Reads the file beside a program.
ghost use Rattle.std.specs.Prelude.{◌≡◌, ◌≤◌, IfOk, IfSome};
ghost use Rattle.sv_io.specs.Faults.{Rose};
ghost use Rattle.sv_run.specs.Beside.{file_bytes};
ghost use Rattle.sv_run.specs.Job.{bytes_found};

use crate::job::Refusal;
use crate::kinds::EventsFault;
use std::alloc::Global;
use sv_base::EVENTS_FILE_LIMIT;
use sv_io::{Got, Shelf, ShelfError};

/// What came of a file beside a program.
#[derive(Drop)]
pub enum Found {
    /// Its bytes.
    Bytes(Vec<u8>),
    /// It isn't there, or is too long.
    Refused(Refusal),
}

/// The bytes of a file. It is refused where it isn't there or has more than `EVENTS_FILE_LIMIT` bytes.
pub fn find<F: Shelf>(alloc: Global, file: &str, shelf: &mut F) -> Result<Found, ShelfError>
    ensures found { IfOk result (λ found. IfSome (F.files shelf.old) (λ files. file_bytes files file.now ≡ bytes_found found)) }
    ensures later { F.faults shelf.old ≤ F.faults shelf.new }
    ensures failed { result ≡ Err ShelfError.Failed → Rose (F.faults shelf.old) (F.faults shelf.new) }
{
    match shelf.read(alloc, file, EVENTS_FILE_LIMIT)? {
        Got::Bytes(bytes) => Ok(Found::Bytes(bytes)),
        Got::Missing => {
            let name = String::from_str(alloc, file)?;
            Ok(Found::Refused(Refusal::Missing(name)))
        }
        Got::TooLong => Ok(Found::Refused(Refusal::Events(EventsFault::TooLong))),
    }
}
