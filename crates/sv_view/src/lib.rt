//! What markup is evaluated on: an instance's cells, row locals and constants, and its owner's behind them.
#![tactic(auto)]

mod cell;
mod constants;
mod locals;
mod view;

pub use cell::Cell;
pub use constants::{Constants, Modules};
pub use locals::{Local, Locals};
pub use view::{At, View};
