//! Tests of components: steps are played on a session, and what is printed of the checks.
#![tactic(auto)]

mod play;

pub use play::{Ended, test};
