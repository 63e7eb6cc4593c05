//! What is shown is the fresh page: behind each turn the page that patches recorded is the one that evaluations of the present states give.
#![tactic(auto)]

mod laws;

pub use laws::{first_page_is_fresh, turns_leave_fresh_pages};
