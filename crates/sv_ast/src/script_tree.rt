// Expressions and statements.
ghost use Rattle.std.specs.Prelude.{◌≡◌, IfOk};

use crate::names::{NameList, Named, Ref};
use crate::operators::{AssignOp, Op};
use std::alloc::Global;
use sv_base::{Name, NoMemory, Num, Span, Text};
use sv_list::Boxed;

/// Expressions, as the arguments of a call or the parts of a template.
pub type Exprs = sv_list::Items<Expr>;

/// What a list literal holds.
pub type Items = sv_list::Items<Entry>;

/// What an object literal holds.
pub type Fields = sv_list::Items<Field>;

/// The operators of one level behind the first operand, each with its right side.
pub type Links = sv_list::Items<Link>;

/// Statements.
pub type Stmts = sv_list::Items<Stmt>;

/// Declared names with their first values.
pub type Decls = sv_list::Items<Decl>;

/// The branches of an `if` that have a condition.
pub type Arms = sv_list::Items<Arm>;

/// The names between the braces of an import.
pub type ImportNames = sv_list::Items<ImportName>;

/// An expression. The span leaves out round brackets that stand about the whole of it.
#[cycle(script)]
#[derive(Drop)]
pub struct Expr {
    pub span: Span,
    pub kind: Boxed<ExprKind>,
}

impl Expr {
    /// An expression of this form, at this place.
    pub fn new(alloc: Global, span: Span, kind: ExprKind) -> Result<Expr, NoMemory>
        ensures { IfOk result (λ made. made ≡ record { span = span; kind = kind }) }
    {
        let kind = Boxed::new(alloc, kind)?;
        Ok(Expr { span, kind })
    }
}

/// The forms of expressions.
#[cycle(script)]
#[derive(Drop)]
pub enum ExprKind {
    Undefined,
    Null,
    Bool(bool),
    Num(Num),
    /// A string, or a literal run of a template. The span of a string takes in its quotes.
    Text(Text),
    /// `x` or `$x`.
    Read(Ref),
    /// `[..]`.
    List(Items),
    /// `{..}`.
    Obj(Fields),
    /// A template. Literal runs that are not empty are `Text` expressions.
    Template(Exprs),
    /// `x => ..` or `(x, y) => ..`.
    Arrow {
        params: NameList,
        body: Body,
    },
    /// `target op value`.
    Assign {
        target: Ref,
        op: AssignOp,
        value: Expr,
    },
    /// `++`, where `up`, or `--`, before its target, where `prefix`, or behind it.
    Bump {
        target: Ref,
        up: bool,
        prefix: bool,
    },
    /// An operand and, to its right, the operators of one level, of which there is at least one.
    Chain {
        first: Expr,
        rest: Links,
    },
    /// `!e`.
    Not(Expr),
    /// `-e`.
    Minus(Expr),
    /// `test ? yes : no`.
    Choose {
        test: Expr,
        yes: Expr,
        no: Expr,
    },
    /// `of.word`.
    Member {
        of: Expr,
        word: Name,
    },
    /// `of[at]`.
    Index {
        of: Expr,
        at: Expr,
    },
    /// `of(args)`.
    Call {
        of: Expr,
        args: Exprs,
    },
}

/// An operator and its right side.
#[cycle(script)]
#[derive(Drop)]
pub struct Link {
    pub op: Op,
    pub right: Expr,
}

/// An item of a list literal: an expression, or `...` before one, whose items it stands for.
#[cycle(script)]
#[derive(Drop)]
pub enum Entry {
    One(Expr),
    Spread(Expr),
}

/// A field of an object literal: a key with its value, where a name alone has the `Read` of that name as its value,
/// or `...` before an expression, whose fields it stands for.
#[cycle(script)]
#[derive(Drop)]
pub enum Field {
    Pair { key: Text, value: Expr },
    Spread(Expr),
}

/// The body of an arrow.
#[cycle(script)]
#[derive(Drop)]
pub enum Body {
    Value(Expr),
    Block(Stmts),
}

/// A declared name, with its first value where one is given.
#[cycle(script)]
#[derive(Drop)]
pub struct Decl {
    pub name: Named,
    pub first: Option<Expr>,
}

/// A branch of an `if` with its condition.
#[cycle(script)]
#[derive(Drop)]
pub struct Arm {
    pub test: Expr,
    pub body: Stmt,
}

/// `import whole from '..'`, or `import { names } from '..'` where `whole` is `None`.
#[derive(Drop)]
pub struct Import {
    pub from: Text,
    pub whole: Option<Named>,
    pub names: ImportNames,
}

/// `given as local`. Without `as` both are the one name.
#[derive(Clone, Copy)]
pub struct ImportName {
    pub given: Named,
    pub local: Named,
}

/// A statement. The span goes from its first token to behind its last one, with its `;` where it has one.
#[cycle(script)]
#[derive(Drop)]
pub struct Stmt {
    pub span: Span,
    pub kind: Boxed<StmtKind>,
}

impl Stmt {
    /// A statement of this form, at this place.
    pub fn new(alloc: Global, span: Span, kind: StmtKind) -> Result<Stmt, NoMemory>
        ensures { IfOk result (λ made. made ≡ record { span = span; kind = kind }) }
    {
        let kind = Boxed::new(alloc, kind)?;
        Ok(Stmt { span, kind })
    }
}

/// The forms of statements.
#[cycle(script)]
#[derive(Drop)]
pub enum StmtKind {
    /// `;`.
    Empty,
    /// `{..}`.
    Block(Stmts),
    /// `let ..`.
    Let(Decls),
    /// `const ..`, of which `exported` says that `export` stands before it.
    Const {
        decls: Decls,
        exported: bool,
    },
    /// `if`, with the branches joined by `else if` and the last `else`.
    If {
        arms: Arms,
        last: Option<Stmt>,
    },
    /// `while (test) body`.
    While {
        test: Expr,
        body: Stmt,
    },
    /// `for (first; test; next) body`, where `first` is a `Let` or an `Eval` whose span ends before the `;`.
    For {
        first: Option<Stmt>,
        test: Option<Expr>,
        next: Option<Expr>,
        body: Stmt,
    },
    /// `for (const name of list) body`, where `fixed`, or the same with `let`.
    Each {
        name: Named,
        fixed: bool,
        list: Expr,
        body: Stmt,
    },
    Break,
    Continue,
    /// `return`, with the expression on its line.
    Return(Option<Expr>),
    /// An expression.
    Eval(Expr),
    Import(Import),
    /// `export let ..`.
    Export(Decls),
    /// `$: statement`.
    React(Stmt),
    /// `function name(params) { body }`, of which `exported` says that `export` stands before it.
    Func {
        name: Named,
        exported: bool,
        params: NameList,
        body: Stmts,
    },
}
