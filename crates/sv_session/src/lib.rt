//! Sessions: a page from its mounting on, through the events that come to it. What is shown is drawn of what patches recorded, and is the fresh page of the
//! present states.
#![tactic(auto)]

mod session;
mod stage;

pub use session::Session;
pub use stage::{Stage, TurnError, Turned};
