//! Which functions of a program are pure, so that markup may call them: those from which no chain of calls leads to a body that
//! reads a variable or changes something; and which arrows are as pure.
#![tactic(auto)]

mod bundle;
mod functions;
mod known;
mod locals;
mod notes;
mod purity;
mod signs;
mod stains;
mod top;

pub use bundle::pure_functions;
pub use purity::Purity;
