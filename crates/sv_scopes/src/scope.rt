// What is told of scopes.
use sv_ast::Ref;
use sv_base::{Name, Span};
use sv_list::Items;

/// The name of the owner's view, which each `<slot>` uses: `$$view`, which is the text of no name.
pub const VIEW: Ref = Ref::Store(Name(u32::MAX));

/// How a name is declared.
#[derive(Clone, Copy, Debug, PartialEq, Eq)]
pub enum Binding {
    /// By `let`.
    Let,
    /// By `export let`.
    Export,
    /// By `const`, which `export` may stand before.
    Const,
    /// By `function`.
    Function,
    /// By an import, between its braces.
    Import,
    /// By an import without braces, which names a component.
    Component,
    /// At the top level, by `$: x = e` alone.
    Reactive,
    /// A parameter, an item or an index of a row, or a slot prop that `let:` names.
    Local,
}

/// A name that a scope declares. The span covers the name, but for a `Reactive` one, where it is that of the assignment.
#[derive(Clone, Copy, Debug, PartialEq, Eq)]
pub struct Declared {
    pub name: Name,
    pub span: Span,
    pub by: Binding,
}

/// What is done with a name where it is used.
#[derive(Clone, Copy, Debug, PartialEq, Eq)]
pub enum Form {
    Read,
    Assigned,
    /// `++x` or `--x`.
    BumpedBefore,
    /// `x++` or `x--`.
    BumpedBehind,
}

/// As what a name stands where it is used.
#[derive(Clone, Copy, Debug, PartialEq, Eq)]
pub enum Role {
    Alone,
    /// `f` in `f(..)`.
    Called,
    /// `m` in `m.word(..)`.
    CalledMember(Name),
    /// The name of a component's tag.
    Tag,
}

/// A place where a name is used.
#[derive(Clone, Copy, Debug, PartialEq, Eq)]
pub struct Use {
    pub name: Ref,
    pub span: Span,
    pub form: Form,
    pub in_arrow: bool,
    pub role: Role,
}

/// A scope.
#[derive(Drop)]
pub struct Scope {
    pub declares: Items<Declared>,
    pub uses: Items<Use>,
}

/// The scopes of a file.
#[derive(Drop)]
pub struct FileScopes {
    pub inside: Items<Scope>,
    pub top: Scope,
}
