//! On which views component tags stand, before and after a patch: what a tag lends to its child, and where the child stays with what it was lent.
#![tactic(auto)]

mod laws;

pub use laws::{
    each_place_is_held, holds_stand_on_owners, patches_stay_lent, tags_stay_lent,
    typing_leaves_holds,
};
