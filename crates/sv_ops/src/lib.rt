//! Operations on values: what operators, members, and the calls on lists, texts and numbers give, what they cost, and which fault comes
//! (ECMA-262, sections 13 and 21 to 23, for whole numbers). Nothing here calls a function of a script.
#![tactic(auto)]

mod compare;
mod faults;
mod given;
mod lists;
mod make;
mod math;
mod members;
mod numbers;
mod operators;
mod texts;
mod visits;
mod white;

pub use compare::{is_nullish, same};
pub use faults::{Fault, FaultKind, OpError};
pub use given::Given;
pub use lists::{concat, includes, index_of, join, slice};
pub use make::{function_of, list_of, object_of, text_value};
pub use math::{absolute, greatest, least, rounded, to_boolean, to_text};
pub use members::{index, length, member, put_fields, put_items};
pub use numbers::{bumped, negated, quotient};
pub use operators::{assigned, binary, stops};
pub use texts::{contains, ends, joined, line, pieces, starts, text_or_fault};
pub use visits::{Verdict, arguments, finish, judge};
pub use white::trimmed;
