//! A page tree that follows what is drawn: it is brought to the nodes of each page that it is given, keeps the nodes of what stays, and
//! tells each change.
#![tactic(auto)]

mod asking;
mod laws;
mod page_tree;

pub use asking::outline;
pub use laws::ways_keep_nodes;
pub use page_tree::PageTree;
