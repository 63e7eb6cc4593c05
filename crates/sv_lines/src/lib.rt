//! Where the lines of a text begin, and the line and the column of a place in it.
#![tactic(auto)]

mod lines;

pub use lines::{line_starts, place_of};
