//! Brings a page to what is to be shown, and tells each change. What stays keeps its node.
#![tactic(auto)]

mod arrange;
mod begin;
mod dress;
mod laws;
mod make;
mod root;
mod screen;
mod shift;
mod spot;
mod stand;

pub use arrange::commit;
pub use laws::places_nest;
pub use root::{blank, show};
pub use screen::Screen;
pub use spot::Spot;
