//! Compiled programs: their `$` names are apart, and so they are subscribed where they should be.
#![tactic(auto)]

mod laws;

pub use laws::{compiled_names_are_subscribed, compiled_programs_are_apart};
