//! Names in expressions and statements: what stands free, what is read and what is assigned.
#![tactic(auto)]

mod lists;
mod locals;
mod map;
mod once;
mod scopes;
mod uses;

pub use lists::{assigned_names, free_names, names_in_arrow, names_in_block, read_names};
pub use locals::{LocalScope, is_local, locals_among, name_of};
pub use map::NameMap;
pub use once::Distinct;
pub use scopes::{arrow_scope, block_scope, head_scope};
pub use uses::Use;
