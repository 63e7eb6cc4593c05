//! The values of scripts: finite trees that share their parts in memory, within a depth and a size.
#![tactic(auto)]

mod compare;
mod fault;
mod key;
mod make;
mod measure;
mod value;
mod words;

pub use compare::{differs, same, truthy};
pub use fault::ValueFault;
pub use key::Key;
pub use make::{make_func, make_list, make_obj, make_text};
pub use value::{Func, Inst, List, Obj, Value};
pub use words::text_of;
