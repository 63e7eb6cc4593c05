//! Values under numbers that are given once, in order, and never again.
#![tactic(auto)]

mod numbered;

pub use numbered::Numbered;
