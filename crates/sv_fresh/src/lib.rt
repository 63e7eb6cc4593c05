//! The page as a document tree, by one walk through the markup of all instances, beside what patches recorded as shown.
//!
//! - The fresh page is the one that the present states give: every expression of markup is evaluated now, and only the marks of nodes, the
//!   states that users left, and the places of children are taken from what is recorded.
//! - The drawn page is the one that is recorded: nothing is evaluated.
#![tactic(auto)]

mod blocks;
mod draw;
mod listeners;
mod nodes;
mod page;
mod scene;
mod slots;
mod source;
mod states;
mod values;

pub use page::{redraw, render};
