// What stands in braces.
ghost use Rattle.std.specs.Prelude.{◌≤◌, length, OnOk};
ghost use Rattle.sv_expr.specs.Limits.{real};
ghost use Rattle.sv_lex.specs.Reader.{Reads};
ghost use Rattle.sv_tags.specs.Holes as spec;

use std::alloc::Global;
use sv_ast::{Expr, ExprKind, Kind, ParseError, Ref};
use sv_base::Span;
use sv_expr::target;
use sv_lex::{Lexeme, Source, Tokens};
use sv_script::expression;

/// What braces hold.
#[derive(Clone, Copy)]
pub enum Filling {
    /// An expression.
    Value,
    /// A name or a store name, which is read.
    Target,
    /// A name, which is read.
    Name,
}

/// An expression in braces, which its span takes in.
#[derive(Drop)]
pub struct Hole {
    pub span: Span,
    pub value: Expr,
}

#[tactic(auto, unfolding(crate::specs::Holes::read_target))]
fn read_target(alloc: Global, tokens: &mut Tokens<'_>) -> Result<Expr, ParseError>
    ensures { Reads (spec.read_target tokens.old) result tokens.new }
{
    let from = tokens.start();
    let found = target(tokens)?;
    Ok(Expr::new(alloc, tokens.span_from(from), ExprKind::Read(found))?)
}

#[tactic(auto, unfolding(crate::specs::Holes::read_name))]
fn read_name(alloc: Global, tokens: &mut Tokens<'_>) -> Result<Expr, ParseError>
    ensures { Reads (spec.read_name tokens.old) result tokens.new }
{
    let found = tokens.name()?;
    let kind = ExprKind::Read(Ref::Plain(found.name));
    Ok(Expr::new(alloc, found.span, kind)?)
}

// What the braces hold, in which so many constructs may enclose one another.
fn filled(
    alloc: Global,
    tokens: &mut Tokens<'_>,
    filling: Filling,
    room: usize,
) -> Result<Expr, ParseError>
    ensures { Reads (spec.filled real filling room tokens.old) result tokens.new }
{
    match filling {
        Filling::Value => expression(alloc, tokens, room),
        Filling::Target => read_target(alloc, tokens),
        Filling::Name => read_name(alloc, tokens),
    }
}

/// Whether one construct more may be opened: `TooDeep` where none may.
#[tactic(auto, unfolding(crate::specs::Holes::opened))]
pub fn opened(source: &Source<'_>, room: usize) -> Result<(), ParseError>
    ensures reads { Reads (spec.opened room source.now) result source.now }
    ensures room { OnOk result (1 ≤ room) }
{
    if room >= 1 {
        Ok(())
    } else {
        Err(source.stop(Kind::TooDeep))
    }
}

/// Braces, of which the first comes next, with what they hold. They are a construct: `TooDeep` comes at the brace where
/// `room` is 0. Else the refusals are those of what they hold, and `Syntax` for another token than the closing brace.
#[tactic(auto, unfolding(crate::specs::Holes::braces))]
pub fn braces(
    alloc: Global,
    source: &mut Source<'_>,
    filling: Filling,
    room: usize,
) -> Result<Hole, ParseError>
    requires { 1 ≤ length source.old.text }
    ensures { Reads (spec.braces real filling room source.old) result source.new }
{
    let from = source.at();
    opened(source, room)?;
    source.pass(1);
    let mut tokens = source.tokens();
    let value = filled(alloc, &mut tokens, filling, room - 1)?;
    *source = tokens.close(Lexeme::RBrace)?;
    Ok(Hole {
        span: source.span_from(from),
        value,
    })
}
