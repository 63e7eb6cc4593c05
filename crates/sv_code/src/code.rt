// Expressions.
ghost use Rattle.std.specs.Prelude.{◌≡◌, IfOk};

use crate::known::{Known, Property};
use std::alloc::Global;
use sv_ast::{AssignOp, Op};
use sv_base::{NoMemory, Num, Span, Text};
use sv_list::Boxed;

/// Expressions, as the arguments of a call or the parts of a template.
pub type Codes = sv_list::Items<Code>;

/// What a list literal holds.
pub type CodeItems = sv_list::Items<CodeItem>;

/// What an object literal holds.
pub type CodeFields = sv_list::Items<CodeField>;

/// The operators of one level behind the first operand, each with its right side.
pub type CodeLinks = sv_list::Items<CodeLink>;

/// An expression, with the place at which it is written.
#[cycle(code)]
#[derive(Drop)]
pub struct Code {
    pub span: Span,
    pub kind: Boxed<CodeKind>,
}

impl Code {
    /// A code of this form, at this place.
    pub fn new(alloc: Global, span: Span, kind: CodeKind) -> Result<Code, NoMemory>
        ensures { IfOk result (λ made. made ≡ record { span = span; kind = kind }) }
    {
        let kind = Boxed::new(alloc, kind)?;
        Ok(Code { span, kind })
    }
}

/// The forms of expressions: those of `sv_ast::ExprKind`, where a name is what it stands for.
#[cycle(code)]
#[derive(Drop)]
pub enum CodeKind {
    Undefined,
    Null,
    Bool(bool),
    Num(Num),
    Text(Text),
    Read(Known),
    List(CodeItems),
    Object(CodeFields),
    Template(Codes),
    /// An arrow, by its number among the functions of the program.
    Arrow(u32),
    /// An assignment to what stands `at` a place.
    Assign {
        target: Known,
        at: Span,
        op: AssignOp,
        value: Code,
    },
    /// `++` or `--` of what stands `at` a place.
    Bump {
        target: Known,
        at: Span,
        up: bool,
        prefix: bool,
    },
    Chain {
        first: Code,
        rest: CodeLinks,
    },
    Not(Code),
    Minus(Code),
    Choose {
        test: Code,
        yes: Code,
        no: Code,
    },
    Member {
        of: Code,
        property: Property,
    },
    Index {
        of: Code,
        at: Code,
    },
    Call {
        of: Code,
        args: Codes,
    },
    /// A call of `createEventDispatcher`, which stands `at` a place: the number of the dispatcher that it makes among the functions of the
    /// program. What it is handed is evaluated and dropped.
    Dispatcher {
        number: u32,
        at: Span,
        args: Codes,
    },
}

/// An operator with its right side.
#[cycle(code)]
#[derive(Drop)]
pub struct CodeLink {
    pub op: Op,
    pub right: Code,
}

/// An item of a list literal.
#[cycle(code)]
#[derive(Drop)]
pub enum CodeItem {
    One(Code),
    Spread(Code),
}

/// A field of an object literal.
#[cycle(code)]
#[derive(Drop)]
pub enum CodeField {
    Pair { key: Text, value: Code },
    Spread(Code),
}
