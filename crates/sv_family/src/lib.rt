//! Where the instances of a page stand: each in what its parent shows, at a place that no other one has, on views of those above it, whatever a turn
//! does.
#![tactic(auto)]

mod laws;

pub use laws::{each_instance_stands_once, families_stand_in_runs, pages_keep_families};
