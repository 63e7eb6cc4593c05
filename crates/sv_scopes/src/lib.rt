//! The scopes of components and modules: what each declares, and which names are used in it.
#![tactic(auto)]

mod attributes;
mod declare;
mod file;
mod found;
mod local_names;
mod markup;
mod scope;
mod script;
mod top;

pub use attributes::{is_slotted, past};
pub use file::{scopes_of_component, scopes_of_module};
pub use local_names::{let_names, row_names};
pub use scope::{Binding, Declared, FileScopes, Form, Role, Scope, Use, VIEW};
