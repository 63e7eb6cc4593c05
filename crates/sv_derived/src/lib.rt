//! Derived stores: by which recipe each is computed, and which have to be.
#![tactic(auto)]

mod entry;
mod graph;

pub use entry::{Derived, Recipe};
pub use graph::Graph;
