//! The mistakes of a program whose files all have trees, and what is told of a program without any.
#![tactic(auto)]

mod called;
mod cells;
mod checked;
mod derived;
mod file;
mod first;
mod found;
mod imported;
mod laws;
mod life;
mod markup;
mod program;
mod stores;
mod waiting;

pub use checked::{Checked, CheckedComponent};
pub use laws::{mistake_or_clean, one_mistake};
pub use program::check;
pub use waiting::is_reactive;
