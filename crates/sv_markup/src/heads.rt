// The heads of blocks, of which the braces are a construct in the block.
ghost use Rattle.std.specs.Prelude.{◌≤◌, length, OnOk};
ghost use Rattle.sv_expr.specs.Limits.{real};
ghost use Rattle.sv_lex.specs.Reader.{Reads};
ghost use Rattle.sv_markup.specs.Rules as spec;

use std::alloc::Global;
use sv_ast::{Expr, Kind, Named, ParseError};
use sv_lex::{Lexeme, Source, Tokens};
use sv_script::expression;

/// What an each block says of its rows: the name of an item, that of its place, and its key.
#[derive(Drop)]
pub struct Row {
    pub item: Named,
    pub index: Option<Named>,
    pub key: Option<Expr>,
}

/// The head of an each block.
#[derive(Drop)]
pub struct Head {
    pub list: Expr,
    pub row: Row,
}

/// Whether a block and its head may be opened: `TooDeep` where they may not.
#[tactic(auto, unfolding(crate::specs::Rules::begun))]
pub fn begun(source: &Source<'_>, room: usize) -> Result<(), ParseError>
    ensures reads { Reads (spec.begun real room source.now) result source.now }
    ensures room { OnOk result (2 ≤ room) }
{
    if room >= 2 {
        Ok(())
    } else {
        Err(source.stop(Kind::TooDeep))
    }
}

/// An expression behind so many bytes, and a closing brace. Its refusals are those of the expression, and `Syntax` for
/// another token than the brace.
#[tactic(auto, unfolding(crate::specs::Rules::headed))]
pub fn headed(
    alloc: Global,
    source: &mut Source<'_>,
    room: usize,
    len: usize,
) -> Result<Expr, ParseError>
    requires front { len ≤ length source.old.text }
    requires room { 2 ≤ room }
    ensures { Reads (spec.headed real room len source.old) result source.new }
{
    source.pass(len);
    let mut tokens = source.tokens();
    let found = expression(alloc, &mut tokens, room - 2)?;
    *source = tokens.close(Lexeme::RBrace)?;
    Ok(found)
}

// The name of the index of a row, behind a comma.
#[tactic(auto, unfolding(crate::specs::Rules::index))]
fn index(tokens: &mut Tokens<'_>) -> Result<Option<Named>, ParseError>
    ensures { Reads (spec.index tokens.old) result tokens.new }
{
    if tokens.eat(Lexeme::Comma) {
        Ok(Some(tokens.name()?))
    } else {
        Ok(None)
    }
}

// The key of a row in round brackets, which are a construct.
#[tactic(auto, unfolding(crate::specs::Rules::key))]
fn key(alloc: Global, tokens: &mut Tokens<'_>, room: usize) -> Result<Option<Expr>, ParseError>
    ensures { Reads (spec.key real room tokens.old) result tokens.new }
{
    if !tokens.sees(Lexeme::LParen) {
        return Ok(None);
    }
    if room < 3 {
        return Err(tokens.refuse(Kind::TooDeep));
    }
    tokens.take();
    let found = expression(alloc, tokens, room - 3)?;
    tokens.expect(Lexeme::RParen)?;
    Ok(Some(found))
}

// The names of a row and its key, behind the list.
#[tactic(auto, unfolding(crate::specs::Rules::each_row, sv_script::specs::Rules::word_as))]
fn each_row(alloc: Global, tokens: &mut Tokens<'_>, room: usize) -> Result<Row, ParseError>
    ensures { Reads (spec.each_row real room tokens.old) result tokens.new }
{
    if tokens.spelling() != b"as".as_slice() {
        return Err(tokens.refuse(Kind::Syntax));
    }
    tokens.take();
    let item = tokens.name()?;
    let index = index(tokens)?;
    let key = key(alloc, tokens, room)?;
    Ok(Row { item, index, key })
}

/// The head of an each block, of which `{#each` comes next. `Syntax` comes at the token that can't go on, and `TooDeep` at
/// the bracket of a key that is one construct too many.
#[tactic(auto, unfolding(crate::specs::Rules::each_head))]
pub fn each_head(alloc: Global, source: &mut Source<'_>, room: usize) -> Result<Head, ParseError>
    requires front { 6 ≤ length source.old.text }
    requires room { 2 ≤ room }
    ensures { Reads (spec.each_head real room source.old) result source.new }
{
    source.pass(6);
    let mut tokens = source.tokens();
    let list = expression(alloc, &mut tokens, room - 2)?;
    let row = each_row(alloc, &mut tokens, room)?;
    *source = tokens.close(Lexeme::RBrace)?;
    Ok(Head { list, row })
}
