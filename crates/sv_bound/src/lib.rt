//! Bound props: the value that a prop takes and the variable that it is bound to have the same value, and so on up.
#![tactic(auto)]

mod laws;

pub use laws::bound_values_go_up;
