// Markup.
use crate::names::Named;
use crate::script_tree::Expr;
use sv_base::{Name, Span, Text};

/// Nodes of markup.
pub type Nodes = sv_list::Items<Markup>;

/// The attributes and directives of a tag.
pub type Attrs = sv_list::Items<TagAttr>;

/// The parts of an attribute's value.
pub type AttrParts = sv_list::Items<AttrPart>;

/// The branches of an if block that have a condition.
pub type Branches = sv_list::Items<Branch>;

/// What an attribute of a tag is: a plain one, a directive by the word before its colon, or the `slot` of a direct
/// child of a component.
#[derive(Clone, Copy, Debug, PartialEq, Eq)]
pub enum AttrKind {
    Plain,
    On,
    Bind,
    Class,
    Let,
    Slot,
}

/// Which of the modifiers `self`, `stopPropagation` and `preventDefault` an `on:` has.
#[derive(Clone, Copy, Debug, PartialEq, Eq)]
pub struct Modifiers {
    pub only_self: bool,
    pub stop: bool,
    pub prevent: bool,
}

/// A part of an attribute's value: text, or an expression in braces, which its span takes in.
#[derive(Drop)]
pub enum AttrPart {
    Text(Text),
    Show { span: Span, value: Expr },
}

/// The value of an attribute: none, or its parts. `{n}` alone is the attribute `n` with the one part that reads `n`.
#[derive(Drop)]
pub enum AttrValue {
    Bare,
    Parts(AttrParts),
}

/// An attribute or a directive. The name of a directive is what stands behind its colon, without modifiers. The span
/// goes from the first byte of its name, or the brace of `{n}`, to behind its value.
#[derive(Drop)]
pub struct TagAttr {
    pub span: Span,
    pub name: Name,
    pub kind: AttrKind,
    pub modifiers: Modifiers,
    pub value: AttrValue,
}

/// A branch of an if block with its condition.
#[cycle(markup)]
#[derive(Drop)]
pub struct Branch {
    pub test: Expr,
    pub body: Nodes,
}

/// A node of markup. The span of an element, a component or a slot goes from its `<` to behind the `>` of its end, and
/// that of a block from the brace of its opening to behind the one of its end.
#[cycle(markup)]
#[derive(Drop)]
pub enum Markup {
    /// Text, with its references read.
    Text {
        span: Span,
        text: Text,
    },
    /// `{value}`. The span takes in the braces.
    Show {
        span: Span,
        value: Expr,
    },
    /// An element.
    Element {
        span: Span,
        name: Text,
        attrs: Attrs,
        children: Nodes,
    },
    /// A component.
    Comp {
        span: Span,
        name: Name,
        attrs: Attrs,
        children: Nodes,
    },
    /// `<slot>`. The default slot has the empty name.
    Slot {
        span: Span,
        name: Text,
        attrs: Attrs,
        children: Nodes,
    },
    /// `{#if ..}`, with the branches of `{:else if ..}` and the last `{:else}`.
    If {
        span: Span,
        arms: Branches,
        last: Option<Nodes>,
    },
    /// `{#each list as item, index (key)}`, and what shows for an empty list.
    Each {
        span: Span,
        list: Expr,
        item: Named,
        index: Option<Named>,
        key: Option<Expr>,
        body: Nodes,
        none: Option<Nodes>,
    },
    /// `{#key value}`.
    Key {
        span: Span,
        value: Expr,
        body: Nodes,
    },
}
