//! Compiled programs mean what their source says.
#![tactic(auto)]

mod laws;

pub use laws::compiled_code_means_the_same;
