//! How HTML spells elements, attributes and texts, with what was typed laid over them, and on demand with the numbers of
//! nodes.
#![tactic(auto)]

mod attributes;
mod escape;
mod tags;
mod void;

pub use tags::{Tag, push_end, push_start, push_text};
