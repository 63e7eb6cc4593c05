//! The fragments of components: markup with its white space taken, with parts in place of expressions, and with numbers in place of
//! component tags and handlers.
#![tactic(auto)]

mod around;
mod attributes;
mod markup;
mod parts;
mod pieces;
mod rows;
mod tags;

pub use around::{Around, Tables};
pub use markup::fragments_of;
