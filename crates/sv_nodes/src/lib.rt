//! The nodes of a page in a slab, each under its key with the keys of its children, and the single steps on
//! them. A contract sees the nodes as a function from keys, or as the tokens that a walk from key 0 gives.
#![tactic(auto)]

mod children;
mod edit;
mod entry;
mod find;
mod grow;
mod number;
mod same;
mod shift;
mod shrink;

pub use edit::{
    drop_attribute, put_attribute, write_attribute, write_dropped, write_text, write_typed,
};
pub use entry::{Content, Element, Entry, entry_at};
pub use find::{find_in, follower};
pub use grow::{Made, make_node};
pub use number::number_in;
pub use same::{has_attribute, has_no_slot, has_text, has_typed};
pub use shift::{Followers, move_node};
pub use shrink::remove_in;
