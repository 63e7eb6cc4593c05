// Shapes.
use crate::held::Held;
use sv_base::{Name, Text};
use sv_list::Items;
use sv_tokens::{Attr, Typed};
use sv_value::Key;

/// The texts of the parts of an attribute's value, in the order of the text.
pub type Texts = Items<Text>;

/// For each attribute of a component's tag the texts of the parts of its value, as far as a patch that evaluates only some of them needs the
/// others.
pub type TagTexts = Items<Texts>;

/// What the attributes of an element came to, in the order of the text.
pub type AttrStates = Items<AttrState>;

/// What is shown of some fragments, one for each.
pub type Shapes = Items<Shape>;

/// What is shown of the rows of a list, in order.
pub type Rows = Items<Row>;

/// The slot props of a `<slot>`, in the order of the text.
pub type SlotProps = Items<SlotProp>;

/// A slot prop: its name, its value, the number that it got when it was evaluated last, and the texts of the parts of its value.
#[derive(Drop)]
pub struct SlotProp {
    pub name: Name,
    pub value: Held,
    pub number: u64,
    pub texts: Texts,
}

/// What a key block showed: its value, and the number of its content, which is another one for new content.
#[derive(Drop)]
pub struct KeyState {
    pub value: Held,
    pub number: u64,
}

/// What an attribute of an element came to when its parts were evaluated last, as far as what it shows depends on it.
#[derive(Drop)]
pub enum AttrState {
    /// Nothing of it is evaluated: it shows what is written, if anything.
    Written,
    /// The texts of the parts of its value, which are joined.
    Texts(Texts),
    /// What it shows of the value of one expression, or of the variable that is bound.
    Shows(Option<Attr>),
    /// Whether a directive `class:` holds.
    Holds(bool),
}

/// What is shown of a fragment. A mark is the number of an element or a text of the page; it stays as long as the place does.
#[cycle(shape)]
#[derive(Drop)]
pub enum Shape {
    /// A text that is written, by its mark.
    Literal(u64),
    /// The text of an expression, and its mark.
    Text {
        mark: u64,
        text: Text,
    },
    /// An element: its mark, the state that a user left in it, what its attributes came to, and its content.
    Element {
        mark: u64,
        typed: Option<Typed>,
        states: AttrStates,
        parts: Shapes,
    },
    /// A component's tag: the number of its place, and what is kept of its attributes.
    Tag {
        place: u64,
        texts: TagTexts,
    },
    /// Nothing of its own, as what goes to a slot with a name: it shows in that slot.
    Nothing,
    /// A `<slot>`: its props, and the content that it shows.
    Slot {
        props: SlotProps,
        parts: Shapes,
    },
    /// An if block: the number of the branch that is shown, which is the number of conditions for the last one, and its content.
    If {
        arm: usize,
        parts: Shapes,
    },
    /// An each block: the number that its list got when it was evaluated last, its rows, and the branch that is shown where there are none.
    Each {
        number: u64,
        rows: Rows,
        none: Shapes,
    },
    /// A key block.
    Key {
        state: KeyState,
        parts: Shapes,
    },
}

/// What is shown of a row: its key, or its number where the list has no keys, its item, and its content.
#[cycle(shape)]
#[derive(Drop)]
pub struct Row {
    pub key: Key,
    pub item: Held,
    pub parts: Shapes,
}
