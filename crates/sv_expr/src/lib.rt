//! Expressions: reads them from tokens, within limits of nesting, links and numbers.
//!
//! A rule that encloses expressions or statements takes what reads those as function values, so that each rule is proved
//! by itself, and the statements of arrows can stand in a crate above.
#![tactic(auto)]

mod ahead;
mod below;
mod fields;
mod form;
mod grammar;
mod laws;
mod leaves;
mod levels;
mod lists;
mod operators;
mod quotients;
mod suffixes;
mod whole;

pub use below::Enclosed;
pub use form::Form;
pub use grammar::Grammar;
pub use laws::{grammar_is_read, read_is_in_the_grammar, refused_for_cause};
pub use leaves::target;
pub use lists::{listed, parameters};
