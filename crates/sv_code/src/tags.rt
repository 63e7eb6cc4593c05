// Component tags and handlers, by number.
use crate::fragments::{FragAttrs, Frags, LetNames};
use crate::parts::{Part, Reading};
use sv_ast::Modifiers;
use sv_base::{Name, Span};

/// The component tags of a program, by number.
pub type Tags = sv_list::Items<Tag>;

/// The handlers of a program, by number.
pub type Handlers = sv_list::Items<Handler>;

/// A component's tag: its place; the number of its component's file; what it gives in the order of the text; the names of its default
/// content; its content in the order of the text, that of named slots among it; and what its content looks at.
#[derive(Drop)]
pub struct Tag {
    pub span: Span,
    pub file: u16,
    pub attrs: FragAttrs,
    pub lets: LetNames,
    pub content: Frags,
    pub reads: Reading,
}

/// `on:`: its place, the event, the modifiers, and the expression; without one the event is passed on to the listeners of the component's own
/// tag.
#[derive(Drop)]
pub struct Handler {
    pub span: Span,
    pub name: Name,
    pub modifiers: Modifiers,
    pub listener: Option<Part>,
}
