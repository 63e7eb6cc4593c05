//! What becomes of the places of child components and of marks in a patch: none is lost, and no number is given twice.
#![tactic(auto)]

mod laws;

pub use laws::{
    numbers_stay_given_once, patches_lose_no_child, plans_lose_no_child, typing_leaves_places,
};
