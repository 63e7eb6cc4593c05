//! The evaluator: expressions, statements, calls, and the listeners that a dispatched event reaches. Each function answers what the definitions
//! of `sv_meaning` say of its code, or `NoMemory`.
#![tactic(auto)]

mod calls;
mod listeners;
mod literals;
mod lookups;
mod settling;
mod statements;
mod values;

pub use calls::call_value;
pub use listeners::{Dispatched, eval_part, tell};
pub use settling::{set, settle};
pub use statements::run;
pub use values::{eval, eval_or};
