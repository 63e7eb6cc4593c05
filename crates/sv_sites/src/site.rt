// What stands in markup.
use sv_ast::Ref;
use sv_base::{Name, Span, Text};

/// The sites of a component, each tag's own before those in its content.
pub type Sites = sv_list::Items<Site>;

/// A place of markup that has to do with another component or with a cell.
#[derive(Drop)]
pub enum Site {
    /// A plain attribute of a component's tag, whose name is `of`.
    Prop {
        of: Name,
        name: Name,
        at: Span,
    },
    /// Content of a component's tag for a slot of that component, at its first node; `again` where the tag has content for that slot
    /// before.
    Content {
        of: Name,
        slot: Text,
        again: bool,
        at: Span,
    },
    /// A `bind:` of a component's tag. What it binds is `None` where that is a local name of the markup.
    PropBind {
        of: Name,
        name: Name,
        target: Option<Ref>,
        at: Span,
    },
    /// A `bind:` of an element, and whether it may stand there.
    Bind {
        fits: bool,
        target: Option<Ref>,
        at: Span,
    },
    /// A `<slot>` by its name, which is empty for the default one.
    Slot(Text),
}
