//! What the trees of scripts and expressions mean, each name looked up when it is read; and that their code means the same.
#![tactic(auto)]

mod laws;

pub use laws::{
    calls_mean_the_same, expressions_mean_the_same, parts_mean_the_same, scripts_mean_the_same,
    statements_mean_the_same,
};
