//! What scripts do in the world of a page: module files, the scripts of components as they are made, reactive statements, the functions that
//! the page calls, and derived stores that settle.
#![tactic(auto)]

mod components;
mod modules;
mod page;
mod reactive;
mod script;

pub use components::run_top;
pub use modules::run_modules;
pub use page::{call, settle, tell_tag};
pub use reactive::run_reactive;
pub use script::Given;
