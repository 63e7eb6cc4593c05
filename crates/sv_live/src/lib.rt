//! What a page is to show, and what it shows now, node by node; and the walk that goes over both in one place.
#![tactic(auto)]

mod attributes;
mod live;
mod node;
mod walk;

pub use attributes::Attributes;
pub use live::{Live, Lives, Named, by_mark, by_place};
pub use node::{Node, Nodes, Own, share_typed};
pub use walk::{Taken, Walk};
