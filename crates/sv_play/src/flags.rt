// What is printed beside the pages.

/// What is printed of each turn beside its page.
#[derive(Clone, Copy, Debug, PartialEq, Eq)]
pub struct Flags {
    /// The lines that scripts logged, before the page.
    pub logs: bool,
    /// The number of each element and each text, in the page; a place that stays from turn to turn keeps its number.
    pub serials: bool,
    /// A line behind the page, which tells how many expressions of markup were evaluated in the turn, and how many instances and
    /// subscriptions to stores there are.
    pub tally: bool,
}
