//! The steps of a test: what the JSON of their file has to be, and the events and expectations that it tells.
#![tactic(auto)]

mod file;
mod form;
mod step;

pub use file::read_steps;
pub use step::{Expectation, Step, Want};
