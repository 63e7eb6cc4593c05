// The openings of tags.
ghost use Rattle.std.specs.Prelude.{◌≡◌, ◌≤◌, length};
ghost use Rattle.sv_expr.specs.Limits.{real};
ghost use Rattle.sv_lex.specs.Literals.{moved};
ghost use Rattle.sv_lex.specs.Reader.{Reads};
ghost use Rattle.sv_tags.specs.Openings as spec;
ghost use Rattle.sv_tags.specs.Openings.{Fills};

use crate::attributes::attribute;
use crate::classes::{Class, front_len};
use crate::directives::{Tag, is_element, is_slot, name_at};
use crate::taken::{Key, Taken};
use crate::values::{literal, value};
use std::alloc::Global;
use sv_ast::{AttrKind, Attrs, Kind, ParseError, TagAttr};
use sv_base::{Name, Text};
use sv_lex::{Source, byte};
use sv_list::Items;

/// The opening of a tag behind its name.
#[derive(Drop)]
pub struct Opening {
    pub attrs: Attrs,
    /// The name that a `<slot>` has, which is no attribute.
    pub slot: Option<Text>,
    /// Whether it ends with `/>`.
    pub is_closed: bool,
}

// What was found of a tag so far.
#[derive(Drop)]
struct Found {
    attrs: Attrs,
    taken: Taken,
    slot: Option<Text>,
    is_closed: bool,
}

// By what an attribute stands once in its tag. A listener may stand again.
fn key_of(kind: AttrKind, name: Name) -> Option<Key>
    ensures { result ≡ spec.key_of kind name }
{
    match kind {
        AttrKind::Plain | AttrKind::Bind | AttrKind::Slot => Some(Key::Attribute(name)),
        AttrKind::Class => Some(Key::Class(name)),
        AttrKind::Let => Some(Key::Let(name)),
        AttrKind::On => None,
    }
}

// Puts an attribute behind those that were found. One that stands again is refused where it begins.
#[tactic(auto, unfolding(crate::specs::Openings::put, crate::specs::Openings::added))]
fn put(source: &Source<'_>, found: &mut Found, attr: TagAttr) -> Result<(), ParseError>
    ensures { Fills (spec.put attr found.old source.now) result found.new source.now }
{
    match key_of(attr.kind, attr.name) {
        None => found.attrs.push(attr)?,
        Some(key) => {
            if !found.taken.add(key)? {
                return Err(source.stop_at(Kind::Syntax, attr.span.from));
            }
            found.attrs.push(attr)?;
        }
    }
    Ok(())
}

// The name of a slot, which is text.
#[tactic(auto, unfolding(crate::specs::Openings::slot_name))]
fn slot_name(
    alloc: Global,
    source: &mut Source<'_>,
    found: &mut Found,
    room: usize,
) -> Result<(), ParseError>
    requires { 4 ≤ length source.old.text }
    ensures { Fills (spec.slot_name real room found.old source.old) result found.new source.new }
{
    if found.slot.is_some() {
        return Err(source.stop(Kind::Syntax));
    }
    let from = source.at();
    source.pass(4);
    let value = value(alloc, source, room)?;
    let text = literal(alloc, &value)?;
    drop(value);
    match text {
        Some(text) => {
            found.slot = Some(text);
            Ok(())
        }
        None => Err(source.stop_at(Kind::Syntax, from)),
    }
}

fn names_slot(tag: Tag, z: &[u8]) -> bool
    ensures { result ≡ spec.names_slot tag z.now }
{
    is_slot(tag) && name_at(z) == "name"
}

// Reads one attribute more.
#[tactic(auto, unfolding(crate::specs::Openings::more))]
fn more(
    alloc: Global,
    source: &mut Source<'_>,
    found: &mut Found,
    tag: Tag,
    owned: bool,
    room: usize,
) -> Result<(), ParseError>
    ensures { Fills (spec.more real room tag owned found.old source.old) result found.new source.new }
{
    if names_slot(tag, source.text()) {
        return slot_name(alloc, source, found, room);
    }
    let attr = attribute(alloc, source, tag, owned, room)?;
    put(source, found, attr)
}

// How many bytes `>` or `/>` takes, or 0 where there is neither.
fn end_len(z: &[u8]) -> usize
    ensures value { result ≡ spec.end_len z.now }
    ensures within { result ≤ length z.now }
{
    match byte(z, 0) {
        b'>' => 1,
        b'/' if byte(z, 1) == b'>' => 2,
        _ => 0,
    }
}

// Goes over white space, and says whether there was any.
fn pass_blanks(source: &mut Source<'_>) -> bool
    ensures found { result ≡ spec.has_blanks source.old.text }
    ensures after { source.new ≡ spec.past_blanks source.old }
{
    let len = front_len(Class::Blank, source.text());
    source.pass(len);
    len != 0
}

// Reads attributes, each behind white space, and the end of the opening of the tag that begins at `from`.
fn attributes(
    alloc: Global,
    source: &mut Source<'_>,
    found: &mut Found,
    tag: Tag,
    owned: bool,
    room: usize,
    from: u32,
) -> Result<(), ParseError>
    ensures { Fills (spec.attributes real room tag owned from found.old source.old) result found.new source.new }
{
    for _turn in 0..source.left() {
        let has_blanks = pass_blanks(source);
        let len = end_len(source.text());
        if len != 0 {
            source.pass(len);
            found.is_closed = len == 2;
            return Ok(());
        }
        if source.left() == 0 {
            return Err(source.stop_at(Kind::Unclosed, from));
        }
        if !has_blanks {
            return Err(source.stop(Kind::Syntax));
        }
        more(alloc, source, found, tag, owned, room)?;
    }
    Err(source.stop_at(Kind::Unclosed, from))
}

fn is_let(attr: &TagAttr) -> bool
    ensures { result ≡ spec.is_let attr.now.kind }
{
    match attr.kind {
        AttrKind::Let => true,
        _ => false,
    }
}

fn is_slotted(attr: &TagAttr) -> bool
    ensures { result ≡ spec.is_slotted attr.now.kind }
{
    match attr.kind {
        AttrKind::Slot => true,
        _ => false,
    }
}

fn has_let(attrs: &[TagAttr]) -> bool
    ensures { result ≡ spec.has_let attrs.now }
{
    attrs.iter().any(|attr| is_let(attr))
}

fn has_slot(attrs: &[TagAttr]) -> bool
    ensures { result ≡ spec.has_slot attrs.now }
{
    attrs.iter().any(|attr| is_slotted(attr))
}

// What was found as an opening. An element that takes names from a slot has to stand in one.
#[tactic(auto, unfolding(crate::specs::Openings::finished))]
fn finished(source: &Source<'_>, found: Found, tag: Tag, from: u32) -> Result<Opening, ParseError>
    ensures { Reads (spec.finished tag from found source.now) result source.now }
{
    let Found {
        attrs,
        slot,
        is_closed,
        ..
    } = found;
    let lacks_slot = is_element(tag) && has_let(attrs.as_slice()) && !has_slot(attrs.as_slice());
    if lacks_slot {
        return Err(source.stop_at(Kind::Syntax, from));
    }
    Ok(Opening {
        attrs,
        slot,
        is_closed,
    })
}

/// The opening of a tag that begins at `from`, behind its name: attributes, each behind white space, and `>` or `/>`.
/// `owned` says that the tag is a direct child of a component, and `room` how many constructs may still be opened.
/// `Unclosed` comes at `from` where the text ends, and `Syntax` where neither white space nor an end stands, at an attribute
/// that stands again, and at `from` for an element that has a `let:` and no `slot`. An attribute stands once by its name,
/// together with bindings, and so does a class and a `let:`; a listener may stand again. Else the refusals are those of the
/// attributes (HTML, 'Start tags'; Svelte 4, 'Element directives', 'Component directives').
#[tactic(auto, unfolding(crate::specs::Openings::opening_tag))]
pub fn opening_tag(
    alloc: Global,
    source: &mut Source<'_>,
    tag: Tag,
    owned: bool,
    room: usize,
    from: u32,
) -> Result<Opening, ParseError>
    ensures { Reads (spec.opening_tag real room tag owned from source.old) result source.new }
{
    let mut found = Found {
        attrs: Items::new(alloc),
        taken: Taken::new(alloc),
        slot: None,
        is_closed: false,
    };
    attributes(alloc, source, &mut found, tag, owned, room, from)?;
    finished(source, found, tag, from)
}
