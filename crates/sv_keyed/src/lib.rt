//! Keys of rows: where they stand, which stands twice, and the steps that turn one list of keys into another.
#![tactic(auto)]

mod arrange;
mod places;
mod step;

pub use arrange::moves;
pub use places::{first_duplicate, places_among};
pub use step::{KeyRefusal, KeyStep};
