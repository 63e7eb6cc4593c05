//! What an element shows of its attributes and directives: from what their parts came to, to the attributes of the page. Nothing is evaluated
//! here; who evaluates is told which parts there are, and what a value comes to.
#![tactic(auto)]

mod attr;
mod class;
mod classes;
mod element;
mod typed;
mod values;

pub use attr::{BOOLEAN_NAMES, attr_of, is_boolean};
pub use element::{Attrs, attributes, state_at};
pub use typed::place_of;
pub use values::{alone, is_literal, joined};
