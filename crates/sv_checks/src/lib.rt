//! The checks of a test: steps whose selectors are read, and what is printed of the verdicts.
#![tactic(auto)]

mod deed;
mod lines;
mod quoted;
mod report;

pub use deed::{Check, Deed, DeedError, deeds_of};
pub use report::Report;
