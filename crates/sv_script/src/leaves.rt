// Statements that enclose nothing, and what comes next.
ghost use Rattle.std.specs.Prelude.{◌≡◌};
ghost use Rattle.sv_lex.specs.Reader.{Reads};
ghost use Rattle.sv_script.specs.Rules as spec;

use crate::place::Place;
use std::alloc::Global;
use sv_ast::{Kind, ParseError, Stmt, StmtKind};
use sv_base::Span;
use sv_lex::{Lexeme, Tokens, first, past, same_lexeme};

// A statement that is one token, with its end, where it may stand.
#[tactic(auto, unfolding(crate::specs::Rules::single))]
fn single(tokens: &mut Tokens<'_>, may_stand: bool) -> Result<Span, ParseError>
    ensures { Reads (spec.single may_stand tokens.old) result tokens.new }
{
    if !may_stand {
        return Err(tokens.refuse(Kind::Syntax));
    }
    let from = tokens.start();
    tokens.take();
    tokens.ending()?;
    Ok(tokens.span_from(from))
}

/// `;`.
#[tactic(auto, unfolding(crate::specs::Rules::empty))]
pub fn empty(alloc: Global, tokens: &mut Tokens<'_>) -> Result<Stmt, ParseError>
    ensures { Reads (spec.empty tokens.old) result tokens.new }
{
    let from = tokens.start();
    tokens.take();
    Ok(Stmt::new(alloc, tokens.span_from(from), StmtKind::Empty)?)
}

/// `break` in a loop.
#[tactic(auto, unfolding(crate::specs::Rules::break_statement))]
pub fn break_statement(
    alloc: Global,
    tokens: &mut Tokens<'_>,
    place: Place,
) -> Result<Stmt, ParseError>
    ensures { Reads (spec.break_statement place tokens.old) result tokens.new }
{
    let span = single(tokens, place.in_loop)?;
    Ok(Stmt::new(alloc, span, StmtKind::Break)?)
}

/// `continue` in a loop.
#[tactic(auto, unfolding(crate::specs::Rules::continue_statement))]
pub fn continue_statement(
    alloc: Global,
    tokens: &mut Tokens<'_>,
    place: Place,
) -> Result<Stmt, ParseError>
    ensures { Reads (spec.continue_statement place tokens.old) result tokens.new }
{
    let span = single(tokens, place.in_loop)?;
    Ok(Stmt::new(alloc, span, StmtKind::Continue)?)
}

/// Whether no expression comes on the line of a `return`.
#[tactic(auto, unfolding(crate::specs::Rules::stops))]
pub fn stops(tokens: &Tokens<'_>) -> bool
    ensures { result ≡ spec.stops tokens.now }
{
    match tokens.peek() {
        Lexeme::Semi | Lexeme::RBrace | Lexeme::End => true,
        _ => tokens.is_later(),
    }
}

/// Whether `else if` comes.
#[tactic(auto, unfolding(crate::specs::Rules::begins_arm, sv_lex::specs::Reader::sees_one, sv_lex::specs::Reader::sees, sv_lex::specs::Reader::next))]
pub fn begins_arm(tokens: &Tokens<'_>) -> bool
    ensures { result ≡ spec.begins_arm tokens.now }
{
    tokens.sees(Lexeme::Else) && same_lexeme(first(past(tokens.text())), Lexeme::If)
}

/// Whether the head of a `for` over a list comes: `const`, or `let` and two names.
#[tactic(auto, unfolding(crate::specs::Rules::begins_each, sv_lex::specs::Reader::sees_one, sv_lex::specs::Reader::sees, sv_lex::specs::Reader::next))]
pub fn begins_each(tokens: &Tokens<'_>) -> bool
    ensures { result ≡ spec.begins_each tokens.now }
{
    if tokens.sees(Lexeme::Let) {
        same_lexeme(first(past(past(tokens.text()))), Lexeme::Name)
    } else {
        tokens.sees(Lexeme::Const)
    }
}
