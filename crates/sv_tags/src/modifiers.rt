// The modifiers of listeners.
ghost use Rattle.std.specs.Prelude.{◌≡◌};
ghost use Rattle.sv_lex.specs.Reader.{Reads};
ghost use Rattle.sv_tags.specs.Attributes as spec;

use crate::directives::{Tag, is_element, name_at};
use sv_ast::{AttrKind, Kind, Modifiers, ParseError};
use sv_lex::{Source, byte};

/// No modifiers.
pub(crate) fn no_modifiers() -> Modifiers
    ensures { result ≡ spec.no_modifiers }
{
    Modifiers {
        only_self: false,
        stop: false,
        prevent: false,
    }
}

// With the modifier of a name, or `None` where that is none.
fn with_modifier(name: &str, found: Modifiers) -> Option<Modifiers>
    ensures { result ≡ spec.with_modifier name.now found }
{
    let mut more = found;
    if name == "self" {
        more.only_self = true;
    } else if name == "stopPropagation" {
        more.stop = true;
    } else if name == "preventDefault" {
        more.prevent = true;
    } else {
        return None;
    }
    Some(more)
}

// Modifiers, each behind a `|`.
fn read(source: &mut Source<'_>) -> Result<Modifiers, ParseError>
    ensures { Reads (spec.all_modifiers source.old) result source.new }
{
    let mut found = no_modifiers();
    for _turn in 0..source.left() {
        if byte(source.text(), 0) != b'|' {
            return Ok(found);
        }
        let name = name_at(&source.text()[1..]);
        match with_modifier(name, found) {
            Some(more) => found = more,
            None => return Err(source.stop(Kind::Syntax)),
        }
        source.pass(1 + name.len());
    }
    Ok(found)
}

fn is_on(kind: AttrKind) -> bool
    ensures { result ≡ spec.is_on kind }
{
    match kind {
        AttrKind::On => true,
        _ => false,
    }
}

/// The modifiers of a listener of an element; others have none. Another word behind a `|` is `Syntax` there.
#[tactic(auto, unfolding(crate::specs::Attributes::modifiers))]
pub(crate) fn modifiers(
    source: &mut Source<'_>,
    tag: Tag,
    kind: AttrKind,
) -> Result<Modifiers, ParseError>
    ensures { Reads (spec.modifiers tag kind source.old) result source.new }
{
    if is_on(kind) && is_element(tag) {
        read(source)
    } else {
        Ok(no_modifiers())
    }
}
