//! Points that are linked to others: the order in which visits place them, each behind those that it is linked to, or the
//! first cycle of links; and the points that some lead to.
#![tactic(auto)]

mod cycle;
mod groups;
mod marks;
mod outcome;
mod reach;
mod turn;
mod walk;

pub use outcome::{Visited, visit};
pub use reach::reached;
pub use turn::unlinked;
