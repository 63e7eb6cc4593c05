//! Shapes that are right on a view are right on each view that agrees with it at what their markup looks at.
#![tactic(auto)]

mod laws;

pub use laws::{
    alike_views_agree, drawn_as_evaluated, holds_are_claimed, right_where_views_agree,
    slots_see_views, still_views_agree, tags_stand_alike, views_agree_back, views_agree_in_turn,
};
