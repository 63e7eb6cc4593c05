// Attributes and directives.
ghost use Rattle.std.specs.Prelude.{◌≡◌, ◌≤◌, length, IfOk};
ghost use Rattle.sv_expr.specs.Limits.{real};
ghost use Rattle.sv_lex.specs.Reader.{Reads};
ghost use Rattle.sv_tags.specs.Attributes as spec;

use crate::classes::{Class, begins, front_len};
use crate::directives::{Tag, filling, given_name, kind_of, misplaced, misvalued, name_at};
use crate::holes::{Filling, opened};
use crate::modifiers::{modifiers, no_modifiers};
use crate::values::{alone, directive_value, value};
use std::alloc::Global;
use sv_ast::{
    AttrKind, AttrPart, AttrValue, Expr, ExprKind, Kind, Named, ParseError, Ref, TagAttr,
};
use sv_base::{NoMemory, Span};
use sv_lex::{Lexeme, Source, Tokens, byte};

// The attribute, unless something is wrong with it.
fn settled(source: &Source<'_>, fault: Option<Kind>, found: TagAttr) -> Result<TagAttr, ParseError>
    ensures { Reads (spec.settled fault found source.now) result source.now }
{
    let from = found.span.from;
    match fault {
        None => Ok(found),
        Some(kind) => {
            drop(found);
            Err(source.stop_at(kind, from))
        }
    }
}

// A name that is the name of an attribute too.
#[tactic(auto, unfolding(crate::specs::Attributes::ascii_name))]
fn ascii_name(tokens: &mut Tokens<'_>) -> Result<Named, ParseError>
    ensures { Reads (spec.ascii_name tokens.old) result tokens.new }
{
    let text = tokens.spelling();
    if front_len(Class::AttributeName, text) != text.len() {
        return Err(tokens.refuse(Kind::Syntax));
    }
    tokens.name()
}

// The attribute of a name, whose value reads the name.
fn short(alloc: Global, span: Span, found: Named) -> Result<TagAttr, NoMemory>
    ensures { IfOk result (λ made. made ≡ spec.short span found) }
{
    let read = Expr::new(alloc, found.span, ExprKind::Read(Ref::Plain(found.name)))?;
    Ok(TagAttr {
        span,
        name: found.name,
        kind: AttrKind::Plain,
        modifiers: no_modifiers(),
        value: alone(alloc, AttrPart::Show { span, value: read })?,
    })
}

// `{n}`, behind its brace.
#[tactic(auto, unfolding(crate::specs::Attributes::shorthand_of))]
fn shorthand_of(
    alloc: Global,
    source: &mut Source<'_>,
    tag: Tag,
    owned: bool,
    from: u32,
) -> Result<TagAttr, ParseError>
    ensures { Reads (spec.shorthand_of tag owned from source.old) result source.new }
{
    let mut tokens = source.tokens();
    let text = tokens.spelling();
    let found = ascii_name(&mut tokens)?;
    *source = tokens.close(Lexeme::RBrace)?;
    let made = short(alloc, source.span_from(from), found)?;
    let fault = match misplaced(tag, owned, text) {
        Some(kind) => Some(kind),
        None => misvalued(tag, text, &made.value),
    };
    settled(source, fault, made)
}

#[tactic(auto, unfolding(crate::specs::Attributes::shorthand))]
fn shorthand(
    alloc: Global,
    source: &mut Source<'_>,
    tag: Tag,
    owned: bool,
    room: usize,
) -> Result<TagAttr, ParseError>
    requires { 1 ≤ length source.old.text }
    ensures { Reads (spec.shorthand tag owned room source.old) result source.new }
{
    if begins(b"{...", source.text()) {
        return Err(source.stop(Kind::OutOfScope));
    }
    let from = source.at();
    opened(source, room)?;
    source.pass(1);
    shorthand_of(alloc, source, tag, owned, from)
}

fn value_by(
    alloc: Global,
    source: &mut Source<'_>,
    filling: Option<Filling>,
    room: usize,
) -> Result<AttrValue, ParseError>
    ensures { Reads (spec.value_by real room filling source.old) result source.new }
{
    match filling {
        None => value(alloc, source, room),
        Some(filling) => directive_value(alloc, source, filling, room),
    }
}

// An attribute by its name.
#[tactic(auto, unfolding(crate::specs::Attributes::named))]
fn named(
    alloc: Global,
    source: &mut Source<'_>,
    tag: Tag,
    room: usize,
) -> Result<TagAttr, ParseError>
    ensures { Reads (spec.named real room tag source.old) result source.new }
{
    let from = source.at();
    let text = source.text();
    let kind = kind_of(text);
    let name = source.intern(given_name(text))?;
    source.pass(name_at(text).len());
    let modifiers = modifiers(source, tag, kind)?;
    let value = value_by(alloc, source, filling(kind), room)?;
    let fault = misvalued(tag, text, &value);
    let made = TagAttr {
        span: source.span_from(from),
        name,
        kind,
        modifiers,
        value,
    };
    settled(source, fault, made)
}

/// An attribute or a directive of a tag. `owned` says that the tag is a direct child of a component, and `room` how many
/// constructs may still be opened. Refused at its place are `OutOfScope` for a form that is left out by its name, for
/// `{...`, for a `slot` on `<slot>`, and for a `type` of `<input>` that isn't text, and `Syntax` for what has no name,
/// stands on a tag where it doesn't belong, or has a value that it can't have. Else the refusals are those of its value
/// (Svelte 4, 'Attributes and props', 'Element directives', 'Component directives').
#[tactic(auto, unfolding(crate::specs::Attributes::attribute))]
pub(crate) fn attribute(
    alloc: Global,
    source: &mut Source<'_>,
    tag: Tag,
    owned: bool,
    room: usize,
) -> Result<TagAttr, ParseError>
    ensures { Reads (spec.attribute real room tag owned source.old) result source.new }
{
    if byte(source.text(), 0) == b'{' {
        return shorthand(alloc, source, tag, owned, room);
    }
    match misplaced(tag, owned, source.text()) {
        Some(kind) => Err(source.stop(kind)),
        None => named(alloc, source, tag, room),
    }
}
