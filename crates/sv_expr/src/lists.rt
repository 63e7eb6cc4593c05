// Items with commas between them.
ghost use Rattle.sv_lex.specs.Reader.{Reads, Parser};
ghost use Rattle.sv_expr.specs.Below.{CanRead, ReadsAs};
ghost use Rattle.sv_expr.specs.Lists as spec;

use std::alloc::Global;
use sv_ast::{Kind, NameList, Named, ParseError};
use sv_lex::{Lexeme, Tokens};
use sv_list::Items;

/// Items with `,` between, a last `,` allowed, up to the token `close`, which is read too. Where `item` reads what a
/// parser says, they are what that parser's list says.
pub fn listed<T: Drop, I: Fn(&mut Tokens<'_>) -> Result<T, ParseError>>(
    alloc: Global,
    tokens: &mut Tokens<'_>,
    close: Lexeme,
    item: I,
) -> Result<Items<T>, ParseError>
    requires { CanRead (I.pre item) }
    ensures { (reader : Parser T) → ReadsAs reader (I.post item) → Reads (spec.listed reader close tokens.old) result tokens.new }
{
    let mut found = Items::new(alloc);
    for _turn in 0..tokens.left() {
        if tokens.eat(close) {
            return Ok(found);
        }
        found.push(item(tokens)?)?;
        if !tokens.eat(Lexeme::Comma) {
            tokens.expect(close)?;
            return Ok(found);
        }
    }
    Err(tokens.refuse(Kind::Syntax))
}

fn one_name(tokens: &mut Tokens<'_>) -> Result<Named, ParseError>
    ensures { Reads (Rattle.sv_lex.specs.Reader.name tokens.old) result tokens.new }
{
    tokens.name()
}

/// The parameters of a function: one name, or names in brackets.
#[tactic(auto, unfolding(crate::specs::Lists::parameters))]
pub fn parameters(alloc: Global, tokens: &mut Tokens<'_>) -> Result<NameList, ParseError>
    ensures { Reads (spec.parameters tokens.old) result tokens.new }
{
    if tokens.eat(Lexeme::LParen) {
        return listed(alloc, tokens, Lexeme::RParen, one_name);
    }
    let mut found = Items::new(alloc);
    found.push(tokens.name()?)?;
    Ok(found)
}
