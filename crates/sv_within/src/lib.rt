//! What is made of markup reads nothing but what it looks at, a component's tag looks at what is looked at in its content, and a list at what the keys
//! of its rows look at.
#![tactic(auto)]

mod laws;

pub use laws::{lists_see_keys, markup_is_within, part_is_within};
