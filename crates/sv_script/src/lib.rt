//! Scripts: reads statements and whole files from tokens, above the rules of expressions, and the public calls.
#![tactic(auto)]

mod branches;
mod calls;
mod contextual;
mod declarations;
mod files;
mod imports;
mod knot;
mod laws;
mod leaves;
mod lists;
mod loops;
mod place;
mod statements;
mod top;

pub use calls::{parse_expr, parse_expr_in, parse_module_script, parse_script};
pub use knot::{component, expression};
pub use laws::{arrow_blocks_are_closed, expressions_are_read, modules_are_read, scripts_are_read};
