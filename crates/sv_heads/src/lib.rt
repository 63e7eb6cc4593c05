//! The lines over what is printed: over a turn, and over what one who watches reports.
#![tactic(auto)]

mod lines;

pub use lines::{turn_line, watch_line};
