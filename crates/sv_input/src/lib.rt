//! What an event does to a page before its flush: the state that a user leaves in an input, and the directives of elements that hear of
//! the event, in the world of the page's scripts.
#![tactic(auto)]

mod binding;
mod delivery;
mod handling;
mod number;
mod object;
mod page;
mod typed;
mod walk;

pub use delivery::Desk;
pub use page::dispatch;
