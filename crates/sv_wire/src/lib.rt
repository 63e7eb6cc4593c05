//! A stream of the changes of a page, as bytes: how items are spelled, what a stream's bytes tell in whatever pieces they come, and a
//! page that follows them.
#![tactic(auto)]

mod fields;
mod flaw;
mod follower;
mod forms;
mod item;
mod laws;
mod reader;
mod spell;
mod state;
mod step;
mod whole;

pub use follower::{FollowError, Follower};
pub use item::{Item, LONGEST_TEXT, Placed};
pub use laws::{
    cut_anywhere, one_spelling, tells_end, tells_nothing, tells_spelled, told_as_spelled,
};
pub use reader::{Reader, WireError};
pub use spell::{put, put_head};
