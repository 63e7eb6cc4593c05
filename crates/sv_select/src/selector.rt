// What a selector asks for (Selectors Level 4, of which these are a small part).
use sv_base::Text;
use sv_list::Items;

/// What a compound asks for besides a tag.
#[derive(Drop)]
pub enum Part {
    /// That the element shows this `id`.
    Id(Text),
    /// That this is one of the words of its `class`.
    Class(Text),
}

/// What is asked of one element: its tag, if any is asked for, and all its parts.
#[derive(Drop)]
pub struct Compound {
    pub tag: Option<Text>,
    pub parts: Items<Part>,
}

/// How an element stands to what was asked before.
#[derive(Clone, Copy, Debug, PartialEq, Eq)]
pub enum Combinator {
    /// It is a child of it.
    Child,
    /// It is somewhere below it.
    Descendant,
}

/// One compound of a selector, with the combinator before it.
#[derive(Drop)]
pub struct Link {
    pub combinator: Combinator,
    pub compound: Compound,
}

/// A selector: its compounds in the order of the text. The first one stands somewhere below the page.
#[derive(Drop)]
pub struct Selector {
    pub links: Items<Link>,
}
