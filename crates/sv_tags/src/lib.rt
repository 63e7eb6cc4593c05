//! Tags of markup: reads text with its references, attributes, the openings of tags, and comments, scripts and styles.
//!
//! Each rule stands at a byte of a `Source`, and goes over to tokens in braces alone. How the nodes of markup enclose one
//! another is told in the crate above.
#![tactic(auto)]

mod attributes;
mod classes;
mod directives;
mod holes;
mod laws;
mod modifiers;
mod openings;
mod raw;
mod taken;
mod texts;
mod values;

pub use classes::{Class, front_len};
pub use directives::{Tag, tag_of};
pub use holes::{Filling, Hole, braces, opened};
pub use laws::{
    braces_are_read, comments_and_styles_are_read, openings_are_read, scripts_are_read,
};
pub use openings::{Opening, opening_tag};
pub use raw::{comment, script, style, tag_end};
pub use texts::{Quote, Setting, text};
