//! Shapes that are right: what they hold is what an evaluation on the present view gives, and a patch keeps it so.
#![tactic(auto)]

mod laws;

pub use laws::{first_is_right, holds_what_evaluates, leaving_stays_right, patches_stay_right};
