//! What the parsers refuse: where the refusal stands, what is written there, and that the grammar gives no tree.
//!
//! All of it is laws over the rules of the readers, on functions that do nothing.
#![tactic(auto)]

mod laws;

pub use laws::{
    component_refusals, expression_refusals, module_refusals, module_script_refusals,
    script_refusals, source_refusals,
};
