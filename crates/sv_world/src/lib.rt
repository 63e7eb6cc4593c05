//! The world in which scripts run: the states of components, the constants of module files, and what a turn may still spend and has logged.
#![tactic(auto)]

mod setup;
mod turn;
mod world;

pub use turn::{STEP_LIMIT, Turn};
pub use world::World;
