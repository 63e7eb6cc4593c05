//! The order in which the reactive statements of a component run.
#![tactic(auto)]

mod links;
mod names;
mod reads;
mod sorting;

pub use reads::{OrderError, Reads};
pub use sorting::order;
