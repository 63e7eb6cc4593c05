//! Markup: reads nodes and whole files, above the rules of tags and scripts, and the public calls.
#![tactic(auto)]

mod blocks;
mod calls;
mod ends;
mod file;
mod heads;
mod knot;
mod laws;
mod leaves;
mod pieces;
mod rules;
mod tags;
mod void;

pub use calls::{parse_component, parse_module};
pub use laws::components_are_read;
