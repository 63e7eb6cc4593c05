// Items one behind another.
ghost use Rattle.std.specs.Prelude.{◌≡◌};
ghost use Rattle.sv_lex.specs.Reader.{Reads, Parser};
ghost use Rattle.sv_expr.specs.Below.{CanRead, ReadsAs};
ghost use Rattle.sv_script.specs.Lists as spec;

use std::alloc::Global;
use sv_ast::{Kind, ParseError};
use sv_lex::{Lexeme, Tokens};
use sv_list::Items;

/// One item or more with `,` between. Where `item` reads what a parser says, they are what that parser's list says.
pub fn separated<T: Drop, I: Fn(&mut Tokens<'_>) -> Result<T, ParseError>>(
    alloc: Global,
    tokens: &mut Tokens<'_>,
    item: I,
) -> Result<Items<T>, ParseError>
    requires { CanRead (I.pre item) }
    ensures { (reader : Parser T) → ReadsAs reader (I.post item) → Reads (spec.separated reader tokens.old) result tokens.new }
{
    let mut found = Items::new(alloc);
    for _turn in 0..tokens.left() {
        found.push(item(tokens)?)?;
        if !tokens.eat(Lexeme::Comma) {
            return Ok(found);
        }
    }
    Err(tokens.refuse(Kind::Syntax))
}

/// Items up to the token `last`, which stays. Where `item` reads what a parser says, they are what that parser's items
/// are.
pub fn upto<T: Drop, I: Fn(&mut Tokens<'_>) -> Result<T, ParseError>>(
    alloc: Global,
    tokens: &mut Tokens<'_>,
    last: Lexeme,
    item: I,
) -> Result<Items<T>, ParseError>
    requires { CanRead (I.pre item) }
    ensures { (reader : Parser T) → ReadsAs reader (I.post item) → Reads (spec.upto reader last tokens.old) result tokens.new }
{
    let mut found = Items::new(alloc);
    for _turn in 0..tokens.left() {
        if tokens.sees(last) {
            return Ok(found);
        }
        found.push(item(tokens)?)?;
    }
    if tokens.sees(last) {
        Ok(found)
    } else {
        Err(tokens.refuse(Kind::Syntax))
    }
}
