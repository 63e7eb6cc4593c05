//! The words that every crate shares: names, numbers, shared texts, spans, `NoMemory`, the limits, and what files may use
//! without declaring it.
#![tactic(auto)]

pub mod built_in;
mod limits;
mod memory;
mod names;
mod num;
mod place;
mod span;
mod text;

pub use limits::{
    CELL_LIMIT, EVENT_LIMIT, EVENTS_FILE_LIMIT, FILE_COUNT_LIMIT, FILE_LIMIT, LINK_LIMIT,
    NAME_LIMIT, NEST_LIMIT, TEXT_LIMIT, VALUE_DEPTH_LIMIT, VALUE_SIZE_LIMIT,
};
pub use memory::NoMemory;
pub use names::{Name, Names};
pub use num::Num;
pub use place::line_col;
pub use span::Span;
pub use text::Text;
