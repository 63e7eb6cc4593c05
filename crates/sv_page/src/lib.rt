//! Turns of a page: its mounting, and what each event that comes to it does.
#![tactic(auto)]

mod laws;
mod turns;

pub use laws::{events_leave_stores_computed, turns_leave_current_pages};
pub use turns::{first_turn, next_turn};
