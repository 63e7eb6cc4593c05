//! The expressions of a component's markup that aren't pure where they stand.
#![tactic(auto)]

mod attributes;
mod built;
mod walk;

pub use built::free_conversions;
pub use walk::impure_markup;
