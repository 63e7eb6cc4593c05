//! What is drawn of what all instances hold is what evaluations give on views that agree with those on which they are shown.
#![tactic(auto)]

mod laws;

pub use laws::{fresh_on_present_views, page_as_evaluated};
