//! What the files of a program import from one another, and the mistakes in it: cycles of imports, and names that nothing gives.
#![tactic(auto)]

mod cycles;
mod files;
mod given;
mod language;
mod origin;
mod unknown;

pub use cycles::{import_cycles, import_links};
pub use files::file_named;
pub use language::{DERIVED_FUNCTIONS, is_derived, is_life_function, is_store_function};
pub use origin::{Origin, origin_of};
pub use unknown::unknown_imports;
