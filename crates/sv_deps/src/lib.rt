//! The names that expressions and content look at: cells by number, and locals of rows and slot props.
#![tactic(auto)]

mod around;
mod looks;
mod names;

pub use looks::{looked_at, tag_looks};
pub use names::{numbers, reading};
