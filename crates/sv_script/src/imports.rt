// Imports.
ghost use Rattle.sv_lex.specs.Reader.{Reads};
ghost use Rattle.sv_script.specs.Script as spec;

use crate::contextual::{is_written, word_as};
use crate::files::is_source;
use std::alloc::Global;
use sv_ast::{Import, ImportName, ImportNames, Kind, Named, ParseError, Stmt, StmtKind};
use sv_base::Text;
use sv_expr::listed;
use sv_lex::{Lexeme, Tokens};

#[tactic(auto, unfolding(crate::specs::Script::known_as))]
fn known_as(tokens: &mut Tokens<'_>, given: Named) -> Result<ImportName, ParseError>
    ensures { Reads (spec.known_as given tokens.old) result tokens.new }
{
    if !is_written(tokens, "as") {
        return Ok(ImportName {
            given,
            local: given,
        });
    }
    tokens.take();
    let local = tokens.name()?;
    Ok(ImportName { given, local })
}

#[tactic(auto, unfolding(crate::specs::Script::import_name))]
fn import_name(tokens: &mut Tokens<'_>) -> Result<ImportName, ParseError>
    ensures { Reads (spec.import_name tokens.old) result tokens.new }
{
    let given = tokens.name()?;
    known_as(tokens, given)
}

// What an import names. Another string is refused as a whole.
#[tactic(auto, unfolding(crate::specs::Script::source))]
fn source(tokens: &mut Tokens<'_>, is_whole: bool) -> Result<Text, ParseError>
    ensures { Reads (spec.source is_whole tokens.old) result tokens.new }
{
    let refusal = tokens.refuse(Kind::Syntax);
    if !tokens.sees(Lexeme::Quoted) {
        return Err(refusal);
    }
    let text = tokens.string()?;
    if is_source(is_whole, text.as_str()) {
        Ok(text)
    } else {
        Err(refusal)
    }
}

// `from`, what is named and the end.
#[tactic(auto, unfolding(crate::specs::Script::origin))]
fn origin(tokens: &mut Tokens<'_>, is_whole: bool) -> Result<Text, ParseError>
    ensures { Reads (spec.origin is_whole tokens.old) result tokens.new }
{
    word_as(tokens, "from")?;
    let text = source(tokens, is_whole)?;
    tokens.ending()?;
    Ok(text)
}

#[tactic(auto, unfolding(crate::specs::Script::import_whole))]
fn import_whole(alloc: Global, tokens: &mut Tokens<'_>, from: u32) -> Result<Stmt, ParseError>
    ensures { Reads (spec.import_whole from tokens.old) result tokens.new }
{
    let whole = Some(tokens.name()?);
    let text = origin(tokens, true)?;
    let kind = StmtKind::Import(Import {
        from: text,
        whole,
        names: ImportNames::new(alloc),
    });
    Ok(Stmt::new(alloc, tokens.span_from(from), kind)?)
}

#[tactic(auto, unfolding(crate::specs::Script::import_names))]
fn import_names(alloc: Global, tokens: &mut Tokens<'_>, from: u32) -> Result<Stmt, ParseError>
    ensures { Reads (spec.import_names from tokens.old) result tokens.new }
{
    tokens.take();
    let names = listed(alloc, tokens, Lexeme::RBrace, import_name)?;
    let text = origin(tokens, false)?;
    let kind = StmtKind::Import(Import {
        from: text,
        whole: None,
        names,
    });
    Ok(Stmt::new(alloc, tokens.span_from(from), kind)?)
}

/// An import.
#[tactic(auto, unfolding(crate::specs::Script::import_statement))]
pub fn import_statement(alloc: Global, tokens: &mut Tokens<'_>) -> Result<Stmt, ParseError>
    ensures { Reads (spec.import_statement tokens.old) result tokens.new }
{
    let from = tokens.start();
    tokens.take();
    if tokens.sees(Lexeme::LBrace) {
        import_names(alloc, tokens, from)
    } else {
        import_whole(alloc, tokens, from)
    }
}
