//! What is shown of the templates of a page, as far as the next patch and the page itself need it: a tree beside each template, the view on
//! which it was shown, and the child that stands at each place.
#![tactic(auto)]

mod held;
mod keep;
mod lay;
mod opened;
mod places;
mod shape;
mod showing;
mod shown;

pub use held::Held;
pub use keep::{share_attr, share_texts};
pub use lay::lay_all;
pub use opened::{
    arm_of, element_of, key_of, list_of, mark_of, parts_of, place_of, props_of, rows_of,
    shown_text, states_of, texts_of, typed_of,
};
pub use places::places_of;
pub use shape::{
    AttrState, AttrStates, KeyState, Row, Rows, Shape, Shapes, SlotProp, SlotProps, TagTexts, Texts,
};
pub use showing::Showing;
pub use shown::Shown;
