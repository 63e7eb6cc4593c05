//! The document tree: what a page shows at one moment, as plain data; how it is printed and numbered, which elements an event
//! meets, and what an element shows.
#![tactic(auto)]

mod element;
mod laws;
mod listener;
mod marks;
mod numbers;
mod path;
mod printed;
mod tree;

pub use element::{Attributes, Element, Listeners};
pub use laws::{one_number, shown_as_printed};
pub use listener::{Binding, Directive, Listener};
pub use numbers::Numbers;
pub use path::{at_places, target};
pub use printed::print;
pub use tree::{Node, Nodes};
