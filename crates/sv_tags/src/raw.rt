// Comments, scripts and styles.
ghost use Rattle.std.specs.Prelude.{◌≡◌, ◌≤◌, length};
ghost use Rattle.sv_expr.specs.Limits.{real};
ghost use Rattle.sv_lex.specs.Reader.{Reads};
ghost use Rattle.sv_tags.specs.Raw as spec;

use crate::classes::{Class, before, front_len, is_in};
use std::alloc::Global;
use sv_ast::{Kind, ParseError, Stmts};
use sv_lex::{Source, byte};
use sv_script::component;

/// A comment, of which `<!--` comes next, to the next `-->`. Without that it is `Syntax` where it begins (HTML, 'Comments').
#[tactic(auto, unfolding(crate::specs::Raw::comment))]
pub fn comment(source: &mut Source<'_>) -> Result<(), ParseError>
    requires { 4 ≤ length source.old.text }
    ensures { Reads (spec.comment source.old) result source.new }
{
    match before(b"-->", &source.text()[4..]) {
        Some(len) => {
            source.pass(len + 7);
            Ok(())
        }
        None => Err(source.stop(Kind::Syntax)),
    }
}

/// White space or none, and the `>` of a tag. `Syntax` comes where another byte stands (HTML, 'End tags').
#[tactic(auto, unfolding(crate::specs::Raw::tag_end))]
pub fn tag_end(source: &mut Source<'_>) -> Result<(), ParseError>
    ensures { Reads (spec.tag_end source.old) result source.new }
{
    let len = front_len(Class::Blank, source.text());
    source.pass(len);
    if byte(source.text(), 0) != b'>' {
        return Err(source.stop(Kind::Syntax));
    }
    source.pass(1);
    Ok(())
}

// Whether white space and an attribute come.
fn has_attribute(z: &[u8]) -> bool
    ensures { result ≡ spec.has_attribute z.now }
{
    let len = front_len(Class::Blank, z);
    let next = byte(z, len);
    1 <= len && (next == b'{' || is_in(Class::AttributeName, next))
}

// The statements of the script that begins at `from`, up to its end tag.
#[tactic(auto, unfolding(crate::specs::Raw::script_inside))]
fn script_inside(alloc: Global, source: &mut Source<'_>, from: u32) -> Result<Stmts, ParseError>
    ensures { Reads (spec.script_inside real from source.old) result source.new }
{
    let (text, at) = (source.text(), source.at());
    let Some(len) = before(b"</script>", text) else {
        return Err(source.stop_at(Kind::Unclosed, from));
    };
    source.go_to(&text[..len], at);
    let mut tokens = source.tokens();
    let found = component(alloc, &mut tokens)?;
    *source = tokens.into_source();
    source.go_to(&text[len + 9..], at + len as u32 + 9);
    Ok(found)
}

/// The statements of a script, of which `<script` comes next, up to `</script>`. `OutOfScope` comes where it begins if it
/// has an attribute, and `Unclosed` if it has no end; the tag's own end is as in `tag_end`. Else the refusals are those of
/// the statements (Svelte 4, 'Svelte components').
#[tactic(auto, unfolding(crate::specs::Raw::script))]
pub fn script(alloc: Global, source: &mut Source<'_>) -> Result<Stmts, ParseError>
    requires { 7 ≤ length source.old.text }
    ensures { Reads (spec.script real source.old) result source.new }
{
    let from = source.at();
    if has_attribute(&source.text()[7..]) {
        return Err(source.stop(Kind::OutOfScope));
    }
    source.pass(7);
    tag_end(source)?;
    script_inside(alloc, source, from)
}

// What a style holds that begins at `from`, up to its end tag.
#[tactic(auto, unfolding(crate::specs::Raw::style_inside))]
fn style_inside(source: &mut Source<'_>, from: u32) -> Result<(), ParseError>
    ensures { Reads (spec.style_inside from source.old) result source.new }
{
    match before(b"</style>", source.text()) {
        Some(len) => {
            source.pass(len + 8);
            Ok(())
        }
        None => Err(source.stop_at(Kind::Unclosed, from)),
    }
}

/// A style, of which `<style` comes next, up to `</style>`. What it holds isn't read. `Unclosed` comes where it begins if it
/// has no end, and the tag's own end is as in `tag_end`, so that an attribute is `Syntax` (Svelte 4, 'Svelte components').
#[tactic(auto, unfolding(crate::specs::Raw::style))]
pub fn style(source: &mut Source<'_>) -> Result<(), ParseError>
    requires { 6 ≤ length source.old.text }
    ensures { Reads (spec.style source.old) result source.new }
{
    let from = source.at();
    source.pass(6);
    tag_end(source)?;
    style_inside(source, from)
}
