// A stream, piece by piece.
ghost use Rattle.std.specs.Prelude.{◌≡◌, ◌<◌, ◌≤◌, ◌+◌, ◌^◌, ◌++◌, None, Err, List, ℕ, length, IfOk, OnOk, OnErr};
ghost use Rattle.sv_io.specs.Faults.{Rose};
ghost use Rattle.sv_io.specs.Sink.{with_bytes, AppendsFront};
ghost use Rattle.sv_mirror.specs.Faults.{bad_of, fault_of};
ghost use Rattle.sv_mirror.specs.Printed.{printed, text_of};
ghost use Rattle.sv_mirror.specs.Screen.{printed_on, left, Prints};
ghost use Rattle.sv_wire.specs.Stream.{resumed};

use crate::fault::{StreamFault, fault_line};
use crate::screen::Screen;
use std::alloc::Global;
use sv_base::NoMemory;
use sv_io::{Sink, SinkError, write_all};
use sv_wire::{Placed, Reader, WireError};

/// The most bytes that are read at once: the items of one such piece are all that is kept of a stream beside its page.
const PIECE: usize = 4_096;

/// Prints a stream: at each turn its line and the page that the changes before it made, each ended by a line feed, up to the end of
/// the stream or its first fault, whose line follows. Answers that fault: `Unfit` where a change doesn't fit the page, `Bad` where
/// the bytes are wrong, `Cut` where they end and the stream doesn't; and `None` exactly where there is none of these. `Failed` comes
/// only where a write failed, and `NoMemory` where memory ran out: what was written is then a prefix of all that.
pub fn mirror<K: Sink>(
    alloc: Global,
    bytes: &[u8],
    out: &mut K,
) -> Result<Option<StreamFault>, SinkError>
    ensures status { IfOk result (λ fault. fault ≡ (printed bytes.now).fault) }
    ensures all { OnOk result (K.written out.new ≡ with_bytes (K.written out.old) (text_of (printed bytes.now))) }
    ensures front { OnErr result (AppendsFront (K.written out.old) (K.written out.new) (text_of (printed bytes.now))) }
    ensures later { K.faults out.old ≤ K.faults out.new }
    ensures failed { result ≡ Err SinkError.Failed → Rose (K.faults out.old) (K.faults out.new) }
{
    let Some(fault) = print_turns(alloc, bytes, out)? else {
        return Ok(None);
    };
    let line = fault_line(alloc, fault)?;
    write_all(out, line.as_bytes())?;
    Ok(Some(fault))
}

// Prints the turns of a stream, and answers the fault that ends them.
fn print_turns<K: Sink>(
    alloc: Global,
    bytes: &[u8],
    out: &mut K,
) -> Result<Option<StreamFault>, SinkError>
    ensures status { IfOk result (λ fault. fault ≡ (printed bytes.now).fault) }
    ensures all { OnOk result (K.written out.new ≡ with_bytes (K.written out.old) (printed bytes.now).turns) }
    ensures front { OnErr result (AppendsFront (K.written out.old) (K.written out.new) (printed bytes.now).turns) }
    ensures later { K.faults out.old ≤ K.faults out.new }
    ensures failed { result ≡ Err SinkError.Failed → Rose (K.faults out.old) (K.faults out.new) }
{
    let mut reader = Reader::new(alloc);
    let mut screen = Screen::new(alloc)?;
    let mut rest = bytes;
    while !rest.is_empty() {
        let (piece, behind) = rest.split_at(rest.len().min(PIECE));
        if let Some(fault) = print_piece(&mut reader, piece, &mut screen, out)? {
            return Ok(Some(fault));
        }
        rest = behind;
    }
    Ok(fault_at_end(&reader))
}

// Prints the turns that end in the next piece, and answers the fault that ends them: a change that doesn't fit, or wrong bytes behind
// the items.
fn print_piece<K: Sink>(
    reader: &mut Reader,
    piece: &[u8],
    screen: &mut Screen,
    out: &mut K,
) -> Result<Option<StreamFault>, SinkError>
    requires { screen.old.turns + length (resumed reader.old piece.now).items < 2 ^ 64 }
    ensures shown { IfOk result (λ fault. (rest : List ℕ) → Prints (K.written out.old) (K.written out.new)
        (printed_on screen.old (resumed reader.old (piece.now ++ rest))) (left fault (printed_on screen.new (resumed reader.new rest)))) }
    ensures front { OnErr result ((rest : List ℕ) → AppendsFront (K.written out.old) (K.written out.new)
        (printed_on screen.old (resumed reader.old (piece.now ++ rest))).turns) }
    ensures reads { OnOk result (reader.new ≡ (resumed reader.old piece.now).standing) }
    ensures sound { IfOk result (λ fault. fault ≡ None → bad_of reader.new ≡ None) }
    ensures few { OnOk result (screen.new.turns ≤ screen.old.turns + length (resumed reader.old piece.now).items) }
    ensures later { K.faults out.old ≤ K.faults out.new }
    ensures failed { result ≡ Err SinkError.Failed → Rose (K.faults out.old) (K.faults out.new) }
{
    let (items, bad) = read_piece(screen.alloc, reader, piece)?;
    let unfit = screen.print_items(&items, out)?;
    Ok(unfit.or(bad))
}

// Reads the next piece: the items that end in it, and the fault where the bytes behind them are wrong.
fn read_piece(
    alloc: Global,
    reader: &mut Reader,
    piece: &[u8],
) -> Result<(Vec<Placed>, Option<StreamFault>), NoMemory>
    ensures told { IfOk result (λ read. resumed reader.old piece.now ≡ record { items = read.0.items; standing = reader.new }) }
    ensures bad { IfOk result (λ read. read.1 ≡ bad_of reader.new) }
{
    let mut items = Vec::new(alloc);
    match reader.feed(piece, &mut items) {
        Ok(()) => Ok((items, None)),
        Err(WireError::Bad { at }) => Ok((items, Some(StreamFault::Bad { at }))),
        Err(WireError::NoMemory) => Err(NoMemory),
    }
}

// The fault of a stream whose bytes have ended.
fn fault_at_end(reader: &Reader) -> Option<StreamFault>
    requires { bad_of reader.now ≡ None }
    ensures { result ≡ fault_of reader.now }
{
    if reader.finished() {
        return None;
    }
    Some(StreamFault::Cut)
}
