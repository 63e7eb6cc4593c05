//! The attributes of each element that is drawn stand by slot.
#![tactic(auto)]

mod laws;

pub use laws::drawn_pages_are_slotted;
