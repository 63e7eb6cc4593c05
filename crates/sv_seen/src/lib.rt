//! What the first page shows of each instance is what evaluations give.
#![tactic(auto)]

mod laws;

pub use laws::first_page_is_right;
