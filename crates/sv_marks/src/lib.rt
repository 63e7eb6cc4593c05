//! No two nodes of a page have one mark.
#![tactic(auto)]

mod laws;

pub use laws::{marks_stand_apart_in_runs, no_two_nodes_have_one_mark};
