// Names in trees.
use sv_base::{Name, Span};

/// A name where it is declared or given. The span covers the name alone.
#[derive(Clone, Copy, Debug, PartialEq, Eq)]
pub struct Named {
    pub name: Name,
    pub span: Span,
}

/// What is read or assigned: `x`, or the store `$x` by the name behind its `$`.
#[derive(Clone, Copy, Debug, PartialEq, Eq, Hash)]
pub enum Ref {
    Plain(Name),
    Store(Name),
}

/// Names with their places, as of parameters.
pub type NameList = sv_list::Items<Named>;

/// What stands free in an expression, or is read or assigned.
pub type RefList = sv_list::Items<Ref>;
