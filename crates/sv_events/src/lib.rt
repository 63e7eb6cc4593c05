//! The events file: what its JSON has to be, in its two versions, and the events of a run that it tells.
#![tactic(auto)]

mod event;
mod file;
mod form;
mod members;
mod refusal;
mod target;

pub use event::{Event, PATH_LIMIT, Path, Target};
pub use file::read_events;
pub use form::{Version, event_of, text_of};
pub use members::filled_text;
pub use refusal::EventsError;
pub use target::place_of;
