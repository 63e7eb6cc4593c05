//! The code of scripts and of expressions: trees in which each name is what it stands for, and each function and each arrow is a number.
#![tactic(auto)]

mod calls;
mod expressions;
mod frames;
mod heads;
mod imports;
mod inside;
mod lists;
mod members;
mod places;
mod statements;
mod tops;

pub use expressions::lower_expr;
pub use inside::Inside;
pub use members::Word;
pub use statements::lower_stmts;
pub use tops::TopNames;
