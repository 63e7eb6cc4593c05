//! Those who watch a page: they hear how it comes to one page after another, and report what they heard.
#![tactic(auto)]

mod audience;
mod hearing;
mod laws;
mod reports;

pub use audience::Audience;
pub use hearing::hear;
pub use laws::{mirrors_show_pages, pages_add_up, watchers_stand_once};
pub use reports::push_reports;
