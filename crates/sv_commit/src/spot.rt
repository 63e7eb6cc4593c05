// Places of a page.
use sv_live::Named;

/// A place of a page: below a node, and before another one below it or at the end.
#[derive(Clone, Copy, Debug, PartialEq, Eq)]
pub struct Spot {
    pub above: Named,
    pub end: Option<u32>,
}
