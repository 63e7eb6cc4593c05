//! The first page is what evaluations give on the cells that snapshots saw.
#![tactic(auto)]

mod laws;

pub use laws::first_page_is_seen;
