//! Prints a stream of changes: the page at each turn, up to the stream's end or its first fault.
#![tactic(auto)]

mod fault;
mod pieces;
mod screen;

pub use fault::{StreamFault, fault_line};
pub use pieces::mirror;
