// What shelves and sinks answer: those in memory, and the present folder and standard output as the system gives them.
use crate::given::Given;
use bstr::ByteSlice;
use std::alloc::Global;
use sv_base::NoMemory;
use sv_io::{DirShelf, Got, Shelf, ShelfError, Sink, SinkError, StdSink, write_all};
use sv_rows::push_part;

/// What reads of a shelf in memory answer: names with `, ` between, each with ` up to ` and the most bytes, and then the files.
pub fn reads(alloc: Global, text: &[u8]) -> Result<String, NoMemory> {
    let (reads, files) = text.split_once_str(b" | ").unwrap_or((text, b""));
    let (mut shelf, _) = Given::read(alloc, files)?.into_shelf_and_sink(alloc)?;
    let reads = String::from_utf8_lossy(alloc, reads)?;
    let mut line = String::new(alloc);
    for call in reads.split(", ") {
        push_part(&mut line, ", ", read(alloc, &mut shelf, call)?.as_str())?;
    }
    Ok(line)
}

/// What a read of the present folder answers: a name, ` up to `, and the most bytes.
pub fn folder(rt: &HostRuntime, call: &str) -> Result<String, NoMemory> {
    let mut shelf = DirShelf::new(rt.clone()?);
    read(rt.alloc(), &mut shelf, call)
}

fn read<S: Shelf>(alloc: Global, shelf: &mut S, call: &str) -> Result<String, NoMemory> {
    let (name, limit) = call.split_once(" up to ").unwrap_or((call, ""));
    told(
        alloc,
        shelf.read(alloc, name, limit.parse::<usize>().unwrap_or(0)),
    )
}

fn told(alloc: Global, answer: Result<Got, ShelfError>) -> Result<String, NoMemory> {
    match answer {
        Ok(Got::Bytes(bytes)) => Ok(String::from_utf8_lossy(alloc, &bytes)?),
        Ok(Got::Missing) => Ok(String::from_str(alloc, "(missing)")?),
        Ok(Got::TooLong) => Ok(String::from_str(alloc, "(too long)")?),
        Err(ShelfError::NoMemory) => Err(NoMemory),
        Err(error) => Ok(error.to_string(alloc)?),
    }
}

/// What a sink in memory holds once a piece was written, and why it doesn't hold the whole: the piece, ` | `, and how writes go.
pub fn writes(alloc: Global, text: &[u8]) -> Result<String, NoMemory> {
    let (piece, given) = text.split_once_str(b" | ").unwrap_or((text, b""));
    let (_, mut sink) = Given::read(alloc, given)?.into_shelf_and_sink(alloc)?;
    let outcome = write_all(&mut sink, piece);
    let mut line = String::from_utf8_lossy(alloc, sink.written())?;
    if let Err(error) = outcome {
        write!(line, ", then {error}")?;
    }
    Ok(line)
}

/// How many bytes standard output takes of an empty piece, and whether it takes a whole one, which stands in front of the row.
pub fn output(rt: &HostRuntime, text: &[u8]) -> Result<String, NoMemory> {
    let mut sink = StdSink::new(rt.clone()?);
    let taken = sink.write(b"");
    let outcome = write_all(&mut sink, text);
    output_told(rt.alloc(), taken, outcome)
}

fn output_told(
    alloc: Global,
    taken: Result<usize, SinkError>,
    outcome: Result<(), SinkError>,
) -> Result<String, NoMemory> {
    match (taken, outcome) {
        (Ok(taken), Ok(())) => Ok(format!(in alloc; "{taken} of nothing, and the whole piece")?),
        _ => Ok(String::from_str(alloc, "refused")?),
    }
}
