//! Where files are read and where output goes: the two traits that a run is generic over, their fakes in memory,
//! and the present folder and standard output.
#![tactic(auto)]

mod memory;
mod shelf;
mod sink;
mod system;

pub use memory::{MemShelf, MemSink};
pub use shelf::{Got, Shelf, ShelfError};
pub use sink::{Sink, SinkError, write_all};
pub use system::{DirShelf, StdSink};
