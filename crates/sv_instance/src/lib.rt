//! One instance of a component: its cells with what they were at its last snapshot, and what its script and its tag left.
#![tactic(auto)]

mod bounds;
mod callbacks;
mod cells;
mod contexts;
mod dirty;
mod instance;
mod place;
mod setup;
mod subscriptions;

pub use bounds::{Bound, Bounds};
pub use callbacks::{Callbacks, When};
pub use cells::Cells;
pub use contexts::Contexts;
pub use dirty::Dirty;
pub use instance::Instance;
pub use place::{Place, Standing};
pub use setup::Setup;
pub use subscriptions::{Subscription, Subscriptions};
