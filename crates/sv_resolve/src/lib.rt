//! Where the names of a component or a module are declared, and the mistakes that its scopes show.
#![tactic(auto)]

mod calls;
mod cells;
mod earliest;
mod mistakes;
mod places;
mod refusals;
mod table;

pub use calls::{first_mistake, resolve, resolve_module};
pub use cells::{Scopes, is_store, is_variable, is_view, scopes_of};
pub use earliest::offer;
pub use places::{declaration_place, name_place};
pub use refusals::{CheckError, CheckKind, CheckRefusal};
