//! The states of all components: live instances, stores, and who waits for an update; what an assignment changes.
#![tactic(auto)]

mod assign;
mod board;
mod change;
mod context;
mod copies;
mod derived;
mod error;
mod follow;
mod moves;
mod parcel;
mod queue;
mod refusal;
mod states;
mod way;

pub use error::{AddError, AssignError};
pub use states::{DEPTH_LIMIT, States};
