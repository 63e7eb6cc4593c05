// The knot of expressions and statements, and whole files.
ghost use Rattle.sv_expr.specs.Limits.{real};
ghost use Rattle.sv_lex.specs.Reader.{Reads};
ghost use Rattle.sv_script.specs.Places.{in_function};
ghost use Rattle.sv_script.specs.Script as spec;
ghost use Rattle.sv_script.specs.Script.{bodies};

use crate::lists::upto;
use crate::place::{FUNCTION, Place};
use crate::statements::{Scripted, Statements};
use std::alloc::Global;
use std::marker::PhantomData;
use sv_ast::{Expr, Kind, ParseError, Stmt, Stmts};
use sv_base::NEST_LIMIT;
use sv_expr::{Form, Grammar};
use sv_lex::{Lexeme, Tokens};

// An expression in a construct, where so many may still enclose one another.
#[cycle(rules)]
fn inside(
    alloc: Global,
    tokens: &mut Tokens<'_>,
    room: usize,
    form: Form,
) -> Result<Expr, ParseError>
    ensures { Reads ((bodies real room).exprs.inside form tokens.old) result tokens.new }
{
    if room == 0 {
        return Err(tokens.refuse(Kind::TooDeep));
    }
    let exprs = Grammar {
        alloc,
        room: room - 1,
        inside,
        block: arrow_block,
        of: PhantomData::<Scripted>,
    };
    exprs.level(tokens, form)
}

// The block of an arrow.
#[cycle(rules)]
fn arrow_block(alloc: Global, tokens: &mut Tokens<'_>, room: usize) -> Result<Stmts, ParseError>
    ensures { Reads ((bodies real room).exprs.block tokens.old) result tokens.new }
{
    block(alloc, tokens, room, FUNCTION)
}

// A block.
#[cycle(rules)]
fn block(
    alloc: Global,
    tokens: &mut Tokens<'_>,
    room: usize,
    place: Place,
) -> Result<Stmts, ParseError>
    ensures { Reads ((bodies real room).block place tokens.old) result tokens.new }
{
    if room == 0 {
        return Err(tokens.refuse(Kind::TooDeep));
    }
    let exprs = Grammar {
        alloc,
        room: room - 1,
        inside,
        block: arrow_block,
        of: PhantomData::<Scripted>,
    };
    let rules = Statements { exprs, block, body };
    rules.braced(tokens, place)
}

// The body of `if`, `else` or a loop.
#[cycle(rules)]
fn body(
    alloc: Global,
    tokens: &mut Tokens<'_>,
    room: usize,
    place: Place,
) -> Result<Stmt, ParseError>
    ensures { Reads ((bodies real room).body place tokens.old) result tokens.new }
{
    if room == 0 {
        return Err(tokens.refuse(Kind::TooDeep));
    }
    let exprs = Grammar {
        alloc,
        room: room - 1,
        inside,
        block: arrow_block,
        of: PhantomData::<Scripted>,
    };
    let rules = Statements { exprs, block, body };
    rules.statement(tokens, place)
}

fn component_item(alloc: Global, tokens: &mut Tokens<'_>, room: usize) -> Result<Stmt, ParseError>
    ensures { Reads (spec.component_item real room (bodies real room) tokens.old) result tokens.new }
{
    let exprs = Grammar {
        alloc,
        room,
        inside,
        block: arrow_block,
        of: PhantomData::<Scripted>,
    };
    let rules = Statements { exprs, block, body };
    rules.component_item(tokens)
}

fn module_item(alloc: Global, tokens: &mut Tokens<'_>, room: usize) -> Result<Stmt, ParseError>
    ensures { Reads (spec.module_item real room (bodies real room) tokens.old) result tokens.new }
{
    let exprs = Grammar {
        alloc,
        room,
        inside,
        block: arrow_block,
        of: PhantomData::<Scripted>,
    };
    let rules = Statements { exprs, block, body };
    rules.module_item(tokens)
}

/// An expression, read as far as it goes, where so many constructs may still enclose one another: for a crate that reads
/// other forms from the same tokens. It is read as the rules say, which give what the grammar gives (`expressions_are_read`).
/// What is no expression is refused at the token that can't go on, a quotient that stands alone as a whole. `TooDeep` comes for
/// a construct where there is no more room, and for a chain of more links than there may be, `NumberTooWide` for a numeral
/// (ECMA-262, sections 13.2 to 13.15).
pub fn expression(alloc: Global, tokens: &mut Tokens<'_>, room: usize) -> Result<Expr, ParseError>
    ensures { Reads (spec.expression real room tokens.old) result tokens.new }
{
    let exprs = Grammar {
        alloc,
        room,
        inside,
        block: arrow_block,
        of: PhantomData::<Scripted>,
    };
    exprs.level(tokens, Form::Whole)
}

/// The statements of a component's script, up to the end of the text: for a crate that reads other forms from the same
/// tokens. They are read as the rules say, which give what the grammar gives (`scripts_are_read`). What is no statement is
/// refused at the token that can't go on, an import's string as a whole where it may not be named. `TooDeep` and
/// `NumberTooWide` come as for expressions, and `TooDeep` for an `if` of more branches than there may be (Svelte 4 docs,
/// "Svelte components", "<script>"; ECMA-262, sections 14 to 16).
#[tactic(auto, unfolding(crate::specs::Script::component))]
pub fn component(alloc: Global, tokens: &mut Tokens<'_>) -> Result<Stmts, ParseError>
    ensures { Reads (spec.component real tokens.old) result tokens.new }
{
    let item = |tokens: &mut Tokens<'_>| -> Result<Stmt, ParseError>
        ensures { Reads (spec.component_item real NEST_LIMIT (bodies real NEST_LIMIT) tokens.old) result tokens.new }
    { component_item(alloc, tokens, NEST_LIMIT) };
    upto(alloc, tokens, Lexeme::End, item)
}

/// The statements of a module, up to the end of the text.
#[tactic(auto, unfolding(crate::specs::Script::file_module))]
pub fn file_module(alloc: Global, tokens: &mut Tokens<'_>) -> Result<Stmts, ParseError>
    ensures { Reads (spec.file_module real tokens.old) result tokens.new }
{
    let item = |tokens: &mut Tokens<'_>| -> Result<Stmt, ParseError>
        ensures { Reads (spec.module_item real NEST_LIMIT (bodies real NEST_LIMIT) tokens.old) result tokens.new }
    { module_item(alloc, tokens, NEST_LIMIT) };
    upto(alloc, tokens, Lexeme::End, item)
}
