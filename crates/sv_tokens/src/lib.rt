//! The words in which every crate speaks of a page: its tokens in document order, the changes that are told
//! of it, and what each change makes of the page that its watchers see.
#![tactic(auto)]

mod change;
mod element;

pub use change::{Change, What};
pub use element::{Attr, Attribute, Typed, shows_id};
