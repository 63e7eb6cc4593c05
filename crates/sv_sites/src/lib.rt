//! The places of a component's markup that have to do with other components or with cells: props, content for slots, slots, and `bind:`.
#![tactic(auto)]

mod attributes;
mod content;
mod hidden;
mod site;
mod tags;
mod texts;
mod walk;

pub use content::is_given;
pub use site::{Site, Sites};
pub use walk::sites_of;
