//! The compiler: what is left of a checked program, for those that run it or list it.
#![tactic(auto)]

mod cells;
mod constants;
mod files;
mod holders;
mod imports;
mod laws;
mod modules;
mod program;
mod runs;
mod top_level;

pub use laws::{one_order, one_program};
pub use program::compile;
