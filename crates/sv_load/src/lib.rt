//! Loading: reads the files of a program from a shelf, in the order of their imports and each with its tree, and tells the
//! line and the column of a place in them.
#![tactic(auto)]

mod file;
mod imports;
mod laws;
mod loading;
mod refusals;

pub use laws::one_outcome;
pub use loading::load;
pub use refusals::LoadError;
