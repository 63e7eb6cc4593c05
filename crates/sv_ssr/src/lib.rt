//! The first page of a program: what is shown once the root is created, with no flush and no page tree.
#![tactic(auto)]

mod first;

pub use first::render;
