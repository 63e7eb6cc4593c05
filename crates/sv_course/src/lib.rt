//! What holds of shown instances and what they have now, whatever a flush does, and what a fact has to be so that a flush keeps it with that.
#![tactic(auto)]

mod laws;

pub use laws::shown_instances_are_watched;
