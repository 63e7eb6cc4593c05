// Markup.
use crate::parts::{Part, Reading};
use sv_base::{Name, Span, Text};
use sv_list::Boxed;

/// Fragments that stand beside one another, in the order of the text.
pub type Frags = sv_list::Items<Frag>;

/// The attributes and directives of a tag, in the order of the text.
pub type FragAttrs = sv_list::Items<FragAttr>;

/// The parts of an attribute's value.
pub type FragValueParts = sv_list::Items<FragValuePart>;

/// The branches of an if block that have a condition.
pub type FragArms = sv_list::Items<FragArm>;

/// The names that slot content gives to slot props.
pub type LetNames = sv_list::Items<LetName>;

/// A part of an attribute's value.
#[derive(Drop)]
pub enum FragValuePart {
    Text(Text),
    Show(Part),
}

/// The value of an attribute: `Bare` where there is none.
#[derive(Drop)]
pub enum FragValue {
    Bare,
    Parts(FragValueParts),
}

/// An attribute, or a directive with the name behind its colon. `slot` and `let:` belong to the content that they name.
#[derive(Drop)]
pub enum FragAttr {
    Plain {
        span: Span,
        name: Name,
        value: FragValue,
    },
    /// `on:`: the number of its handler among those of the program, and what the handler's expression looks at.
    On {
        handler: u32,
        reads: Reading,
    },
    /// `bind:`, whose part reads the variable that it names.
    Bind {
        span: Span,
        name: Name,
        target: Part,
    },
    /// `class:`, whose part is the variable of that name where it has no expression.
    Class {
        span: Span,
        name: Name,
        test: Part,
    },
}

/// A name of slot content, and the slot prop that it stands for.
#[derive(Clone, Copy, Debug, PartialEq, Eq)]
pub struct LetName {
    pub prop: Name,
    pub local: Name,
}

/// A branch of an if block with a condition.
#[cycle(fragments)]
#[derive(Drop)]
pub struct FragArm {
    pub test: Part,
    pub body: Frags,
}

/// A node of markup.
#[cycle(fragments)]
#[derive(Drop)]
pub enum Frag {
    Text(Text),
    Show(Part),
    Element {
        span: Span,
        name: Text,
        attrs: FragAttrs,
        children: Frags,
    },
    /// A component's tag: its number among those of the program, and what it looks at, with its content.
    Tag {
        tag: u32,
        reads: Reading,
    },
    /// In the content of a component, what goes to the slot of a name.
    Named {
        slot: Text,
        lets: LetNames,
        node: Boxed<Frag>,
    },
    /// `<slot>`, with what it shows where there is no content for it, and what it looks at by itself: the owner's view.
    Slot {
        span: Span,
        name: Text,
        attrs: FragAttrs,
        own: Frags,
        reads: Reading,
    },
    If {
        arms: FragArms,
        last: Option<Frags>,
    },
    Each {
        list: Part,
        item: Name,
        index: Option<Name>,
        key: Option<Part>,
        body: Frags,
        none: Option<Frags>,
    },
    Key {
        value: Part,
        body: Frags,
    },
}
