// What encloses nothing.
ghost use Rattle.std.specs.Prelude.{◌≡◌};
ghost use Rattle.sv_expr.specs.Limits.{real};
ghost use Rattle.sv_expr.specs.Rules as spec;
ghost use Rattle.sv_lex.specs.Reader.{Reads};

use crate::operators::literal;
use crate::quotients::is_quotient;
use std::alloc::Global;
use sv_ast::{Expr, ExprKind, Field, Kind, ParseError, Ref, Refused};
use sv_lex::{Lexeme, Tokens};

/// A name or a store name.
#[tactic(auto, unfolding(crate::specs::Rules::target))]
pub fn target(tokens: &mut Tokens<'_>) -> Result<Ref, ParseError>
    ensures { Reads (spec.target tokens.old) result tokens.new }
{
    match tokens.peek() {
        Lexeme::Store => Ok(Ref::Store(tokens.store_name()?.name)),
        _ => Ok(Ref::Plain(tokens.name()?.name)),
    }
}

/// A numeral.
#[tactic(auto, unfolding(crate::specs::Rules::number))]
pub fn number(alloc: Global, tokens: &mut Tokens<'_>) -> Result<Expr, ParseError>
    ensures { Reads (spec.number real tokens.old) result tokens.new }
{
    let from = tokens.start();
    let value = tokens.numeral()?;
    Ok(Expr::new(alloc, tokens.span_from(from), ExprKind::Num(value))?)
}

/// A string.
#[tactic(auto, unfolding(crate::specs::Rules::quoted))]
pub fn quoted(alloc: Global, tokens: &mut Tokens<'_>) -> Result<Expr, ParseError>
    ensures { Reads (spec.quoted tokens.old) result tokens.new }
{
    let from = tokens.start();
    let text = tokens.string()?;
    Ok(Expr::new(alloc, tokens.span_from(from), ExprKind::Text(text))?)
}

/// A word that is a value. Another token is refused.
#[tactic(auto, unfolding(crate::specs::Rules::constant))]
pub fn constant(alloc: Global, tokens: &mut Tokens<'_>) -> Result<Expr, ParseError>
    ensures { Reads (spec.constant tokens.old) result tokens.new }
{
    let from = tokens.start();
    match literal(tokens.peek()) {
        Some(kind) => {
            tokens.take();
            Ok(Expr::new(alloc, tokens.span_from(from), kind)?)
        }
        None => Err(tokens.refuse(Kind::Syntax)),
    }
}

/// A field that is a name alone, which is read.
#[tactic(auto, unfolding(crate::specs::Rules::shorthand))]
pub fn shorthand(alloc: Global, tokens: &mut Tokens<'_>) -> Result<Field, ParseError>
    ensures { Reads (spec.shorthand tokens.old) result tokens.new }
{
    let from = tokens.start();
    let key = tokens.word_text()?;
    let found = tokens.name()?;
    let read = ExprKind::Read(Ref::Plain(found.name));
    let value = Expr::new(alloc, tokens.span_from(from), read)?;
    Ok(Field::Pair { key, value })
}

/// An expression that is no quotient. One is refused as a whole.
pub fn undivided(tokens: &Tokens<'_>, of: Expr) -> Result<Expr, ParseError>
    ensures { Reads (spec.undivided of tokens.now) result tokens.now }
{
    let at = of.span;
    if is_quotient(&of) {
        return Err(ParseError::Refused(Refused {
            kind: Kind::Syntax,
            at,
        }));
    }
    Ok(of)
}
