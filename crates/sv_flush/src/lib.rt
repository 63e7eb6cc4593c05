//! How a page comes about and follows its components' states: instances that are made, updated and destroyed, the effects of their patches, and
//! rounds until nobody waits for an update.
#![tactic(auto)]

mod bind;
mod callbacks;
mod create;
mod destroy;
mod flush;
mod laws;
mod machine;
mod page;
mod rounds;
mod set;
mod show;
mod site;
mod wait;
mod waiting;

pub use laws::{known_views, versions_tell_cells};
pub use machine::Machine;
pub use page::Page;
pub use rounds::Rounds;
pub use waiting::{Binding, Waiting};
