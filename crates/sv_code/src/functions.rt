// Statements, and the functions whose bodies they are.
ghost use Rattle.std.specs.Prelude.{◌≡◌, IfOk};

use crate::code::Code;
use crate::known::Known;
use crate::parts::Locals;
use std::alloc::Global;
use sv_ast::{Import, NameList, Named};
use sv_base::{NoMemory, Span};
use sv_list::Boxed;

/// Statements.
pub type CodeStmts = sv_list::Items<CodeStmt>;

/// Declared names with their first values.
pub type CodeDecls = sv_list::Items<CodeDecl>;

/// The branches of an `if` that have a condition.
pub type CodeArms = sv_list::Items<CodeArm>;

/// The functions and arrows of a program, by number.
pub type Functions = sv_list::Items<Function>;

/// A declared name, what it stands for, and its first value. Of a variable or a constant at the top of a component, `store` is the cell that
/// has the value of the store that it holds, if its `$` name is written anywhere.
#[derive(Drop)]
pub struct CodeDecl {
    pub name: Named,
    pub target: Known,
    pub store: Option<u8>,
    pub first: Option<Code>,
}

/// A branch of an `if` with a condition.
#[cycle(stmts)]
#[derive(Drop)]
pub struct CodeArm {
    pub test: Code,
    pub body: CodeStmt,
}

/// A statement, with the place at which it is written.
#[cycle(stmts)]
#[derive(Drop)]
pub struct CodeStmt {
    pub span: Span,
    pub kind: Boxed<CodeStmtKind>,
}

impl CodeStmt {
    /// A statement of this form, at this place.
    pub fn new(alloc: Global, span: Span, kind: CodeStmtKind) -> Result<CodeStmt, NoMemory>
        ensures { IfOk result (λ made. made ≡ record { span = span; kind = kind }) }
    {
        let kind = Boxed::new(alloc, kind)?;
        Ok(CodeStmt { span, kind })
    }
}

/// The forms of statements, as those of `sv_ast::StmtKind`.
#[cycle(stmts)]
#[derive(Drop)]
pub enum CodeStmtKind {
    Empty,
    /// A block, with the names that it declares.
    Block {
        declares: Locals,
        stmts: CodeStmts,
    },
    Let(CodeDecls),
    Const {
        decls: CodeDecls,
        exported: bool,
    },
    If {
        arms: CodeArms,
        last: Option<CodeStmt>,
    },
    While {
        test: Code,
        body: CodeStmt,
    },
    /// A `for` with its head, and the names that the head declares.
    For {
        declares: Locals,
        first: Option<CodeStmt>,
        test: Option<Code>,
        next: Option<Code>,
        body: CodeStmt,
    },
    Each {
        name: Named,
        fixed: bool,
        list: Code,
        body: CodeStmt,
    },
    Break,
    Continue,
    Return(Option<Code>),
    Eval(Code),
    Import(Import),
    Export(CodeDecls),
    React(CodeStmt),
    /// A function at the top of a file: which constant it is, and its number among the functions of the program.
    Function {
        name: Named,
        exported: bool,
        target: Known,
        number: u32,
    },
}

/// What a function value calls: where it is written; its parameters; the local names that it takes along when it is made, by first
/// appearance; the names that its body declares; and its body.
#[derive(Drop)]
pub struct Function {
    pub span: Span,
    pub params: NameList,
    pub captured: Locals,
    pub declares: Locals,
    pub body: FunctionBody,
}

/// The body of a function, or an arrow's one expression; or what a dispatcher does, or `writable`.
#[derive(Drop)]
pub enum FunctionBody {
    Value(Code),
    Block(CodeStmts),
    Dispatch,
    Writable,
}

/// The number of `writable` among the functions of each program.
pub const WRITABLE: u32 = 0;
