// What is told of a page.
use crate::{Attr, Typed};
use sv_base::Text;

/// What a new node is.
#[derive(Drop)]
pub enum What {
    Element(Text),
    Text(Text),
}

/// A change of a page. Nodes are named by their serial numbers; 0 is the page itself, and as `before` the end
/// of the parent's children. Anchors are never named.
#[derive(Drop)]
pub enum Change {
    /// A new node, the last child of `parent` or the one before `before`.
    Make {
        serial: u64,
        parent: u64,
        before: u64,
        what: What,
    },
    /// A text node has this text now.
    SetText {
        serial: u64,
        text: Text,
    },
    /// An element has this attribute now, in the place of the one that it had at the slot.
    SetAttr {
        serial: u64,
        slot: u16,
        name: Text,
        attr: Attr,
    },
    /// An element has no attribute at the slot any more.
    DropAttr {
        serial: u64,
        slot: u16,
    },
    /// An element shows what was typed, or nothing typed any more.
    SetTyped {
        serial: u64,
        typed: Option<Typed>,
    },
    /// A node stands elsewhere among the children of its parent.
    Move {
        serial: u64,
        before: u64,
    },
    /// A node is gone, with all below it.
    Remove {
        serial: u64,
    },
}
