//! Stores: values by number, each with the cells that are subscribed to it.
#![tactic(auto)]

mod seat;
mod stores;

pub use seat::Seat;
pub use stores::{Stores, Sub};
