//! The mistakes of a component's tags: props and slots that the component of a tag hasn't, and `bind:` of what can't be bound.
#![tactic(auto)]

mod children;
mod mistakes;
mod sheets;

pub use children::children_of;
pub use mistakes::{bad_binds, unknown_props, unknown_slots};
pub use sheets::{Sheet, sheets_of};
