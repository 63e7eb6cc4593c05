//! The white space of markup: which text is kept of nodes that stand beside one another.
#![tactic(auto)]

mod join;
mod pieces;
mod strip;

pub use pieces::{Piece, kept};
