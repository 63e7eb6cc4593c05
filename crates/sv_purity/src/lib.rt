//! Which expressions may stand in markup, because they can't go stale and change nothing, and where others do.
#![tactic(auto)]

mod calls;
mod pure;
mod scope;

pub use calls::{is_list_call, is_math, is_math_call, is_value_call};
pub use pure::{first_impurity, is_pure};
pub use scope::{Known, Scope};
