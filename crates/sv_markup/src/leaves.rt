// What encloses no nodes.
ghost use Rattle.std.specs.Prelude.{◌≤◌, length};
ghost use Rattle.sv_expr.specs.Limits.{real};
ghost use Rattle.sv_lex.specs.Reader.{Reads};
ghost use Rattle.sv_markup.specs.Rules as spec;

use crate::ends::end_tag_len;
use std::alloc::Global;
use sv_ast::{Kind, Markup, ParseError};
use sv_lex::Source;
use sv_tags::{Filling, Hole, Setting, braces, text};

/// Text between tags, as far as it goes.
#[tactic(auto, unfolding(crate::specs::Rules::words))]
pub fn words(alloc: Global, source: &mut Source<'_>) -> Result<Markup, ParseError>
    ensures { Reads (spec.words source.old) result source.new }
{
    let from = source.at();
    let text = text(alloc, source, Setting::Body)?;
    Ok(Markup::Text {
        span: source.span_from(from),
        text,
    })
}

/// An expression in braces, of which the first comes next. They are a construct: `TooDeep` comes where `room` is 0.
#[tactic(auto, unfolding(crate::specs::Rules::show))]
pub fn show(alloc: Global, source: &mut Source<'_>, room: usize) -> Result<Markup, ParseError>
    requires { 1 ≤ length source.old.text }
    ensures { Reads (spec.show real room source.old) result source.new }
{
    let Hole { span, value } = braces(alloc, source, Filling::Value, room)?;
    Ok(Markup::Show { span, value })
}

/// The end tag of the element of this name that begins at `from`, which is refused as `Unclosed` where another thing stands.
#[tactic(auto, unfolding(crate::specs::Rules::end_tag))]
pub fn end_tag(source: &mut Source<'_>, from: u32, name: &str) -> Result<(), ParseError>
    ensures { Reads (spec.end_tag from name.now source.old) result source.new }
{
    let len = end_tag_len(name.as_bytes(), source.text());
    if len == 0 {
        return Err(source.stop_at(Kind::Unclosed, from));
    }
    source.pass(len);
    Ok(())
}

/// The end of the block that begins at `from`, which is written so. The block is refused as `Unclosed` where another thing
/// stands.
#[tactic(auto, unfolding(crate::specs::Rules::block_end))]
pub fn block_end(source: &mut Source<'_>, from: u32, end: &str) -> Result<(), ParseError>
    ensures { Reads (spec.block_end from end.now source.old) result source.new }
{
    if !source.text().starts_with(end.as_bytes()) {
        return Err(source.stop_at(Kind::Unclosed, from));
    }
    source.pass(end.len());
    Ok(())
}
