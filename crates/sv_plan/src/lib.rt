//! The plan of a patch: what is evaluated when an instance goes from the view on which it was shown to its present one, which effects that has
//! on child components, and what is shown afterwards.
#![tactic(auto)]

mod blocks;
mod content;
mod instance;
mod lists;
mod rows;
mod slots;
mod walk;

pub use content::{Content, content_at, outer_tags};
pub use instance::{Patched, Patching, patch};
pub use lists::{EachBlock, Spot, row_view};
pub use slots::content_view;
pub use sv_parts::{Effect, Given, Kept, PatchError, Refusal};
pub use walk::{body_of, frags_of};
