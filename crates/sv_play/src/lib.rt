//! What is printed of a run: the lines and the page of each turn, or why a turn is refused; or the sums of a whole run.
#![tactic(auto)]

mod faults;
mod flags;
mod lines;
mod refused;
mod run;
mod summary;
mod turn;

pub use flags::Flags;
pub use refused::{push_refused, write_refused};
pub use run::play;
pub use summary::summarize;
