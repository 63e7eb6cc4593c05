// What an attribute is by its name, and where it may stand. The texts begin with the name.
ghost use Rattle.std.specs.Prelude.{◌≡◌, ◌≤◌, length};
ghost use Rattle.std.specs.List.{list_any};
ghost use Rattle.std.specs.Str.{bytes_eq};
ghost use Rattle.sv_tags.specs.Classes as classes;
ghost use Rattle.sv_tags.specs.Directives as spec;

use crate::classes::{Class, begins, front_of};
use crate::holes::Filling;
use crate::values::is_literal;
use std::str;
use sv_ast::{AttrKind, AttrValue, Kind};
use sv_lex::is_name;

/// What a tag is of, as far as its attributes differ.
#[derive(Clone, Copy, Debug, PartialEq, Eq)]
pub enum Tag {
    /// An element, but `<input>` and `<slot>`.
    Element,
    /// `<input>`.
    Input,
    /// A component.
    Component,
    /// `<slot>`.
    Slot,
}

/// What a tag of this name is of, where it isn't a component's.
pub fn tag_of(name: &[u8]) -> Tag
    ensures { result ≡ spec.tag_of name.now }
{
    match name {
        b"input" => Tag::Input,
        b"slot" => Tag::Slot,
        _ => Tag::Element,
    }
}

/// The name of the attribute, as text.
pub(crate) fn name_at(z: &[u8]) -> &str
    ensures { result.now ≡ spec.name_at z.now }
{
    match str::from_utf8(front_of(Class::AttributeName, z)) {
        Ok(text) => text,
        Err(_) => unreachable!(),
    }
}

// The word of a directive, with its colon.
fn word(kind: AttrKind) -> &'static [u8]
    ensures { result.now ≡ spec.word kind }
{
    match kind {
        AttrKind::On => b"on:",
        AttrKind::Bind => b"bind:",
        AttrKind::Class => b"class:",
        AttrKind::Let => b"let:",
        AttrKind::Plain | AttrKind::Slot => b"",
    }
}

// What an attribute is that is no directive.
fn undirected(z: &[u8]) -> AttrKind
    ensures value { result ≡ spec.undirected z.now }
    ensures within { length (spec.word result) ≤ length z.now }
{
    if name_at(z) == "slot" {
        AttrKind::Slot
    } else {
        AttrKind::Plain
    }
}

/// What the attribute is.
#[tactic(auto, unfolding(crate::specs::Directives::kind_of))]
pub(crate) fn kind_of(z: &[u8]) -> AttrKind
    ensures value { result ≡ spec.kind_of z.now }
    ensures within { length (spec.word result) ≤ length z.now }
{
    if begins(word(AttrKind::On), z) {
        AttrKind::On
    } else if begins(word(AttrKind::Bind), z) {
        AttrKind::Bind
    } else if begins(word(AttrKind::Class), z) {
        AttrKind::Class
    } else if begins(word(AttrKind::Let), z) {
        AttrKind::Let
    } else {
        undirected(z)
    }
}

/// The name behind the word of the directive, or the whole name.
pub(crate) fn given_name(z: &[u8]) -> &str
    ensures { result.now ≡ spec.given_name z.now }
{
    let len = word(kind_of(z)).len();
    name_at(&z[len..])
}

// The words of the directives that are left out, and the whole names of two more.
const LEFT_OUT_WORDS: [&str; 6] = ["transition:", "in:", "out:", "animate:", "use:", "style:"];

const LEFT_OUT_NAMES: [&str; 2] = ["bind:this", "bind:group"];

fn begins_with_any(words: &[&str], z: &[u8]) -> bool
    ensures { result ≡ list_any (λ w. classes.begins w.now z.now) words.now }
{
    words.iter().any(|w| begins(w.as_bytes(), z))
}

fn is_among(name: &str, names: &[&str]) -> bool
    ensures { result ≡ list_any (λ n. bytes_eq name.now n.now) names.now }
{
    names.iter().any(|n| name == *n)
}

#[tactic(auto, unfolding(crate::specs::Directives::is_left_out))]
fn is_left_out(z: &[u8]) -> bool
    ensures { result ≡ spec.is_left_out z.now }
{
    begins_with_any(&LEFT_OUT_WORDS, z) || is_among(name_at(z), &LEFT_OUT_NAMES)
}

/// Whether it is a tag of an element, `<slot>` aside.
pub(crate) fn is_element(tag: Tag) -> bool
    ensures { result ≡ spec.is_element tag }
{
    match tag {
        Tag::Element | Tag::Input => true,
        Tag::Component | Tag::Slot => false,
    }
}

fn is_component(tag: Tag) -> bool
    ensures { result ≡ spec.is_component tag }
{
    match tag {
        Tag::Component => true,
        Tag::Element | Tag::Input | Tag::Slot => false,
    }
}

fn is_input(tag: Tag) -> bool
    ensures { result ≡ spec.is_input tag }
{
    match tag {
        Tag::Input => true,
        Tag::Element | Tag::Component | Tag::Slot => false,
    }
}

/// Whether it is `<slot>`.
pub(crate) fn is_slot(tag: Tag) -> bool
    ensures { result ≡ spec.is_slot tag }
{
    match tag {
        Tag::Slot => true,
        Tag::Element | Tag::Input | Tag::Component => false,
    }
}

// Whether an attribute of the kind and the name may stand on the tag.
fn suits(kind: AttrKind, tag: Tag, name: &str) -> bool
    ensures { result ≡ spec.suits kind tag name.now }
{
    match kind {
        AttrKind::On | AttrKind::Let => is_element(tag) || is_component(tag),
        AttrKind::Bind => {
            is_component(tag) || (is_element(tag) && (name == "value" || name == "checked"))
        }
        AttrKind::Class => is_element(tag),
        AttrKind::Plain | AttrKind::Slot => true,
    }
}

fn misplaced_by(kind: AttrKind, tag: Tag, owned: bool, name: &str) -> Option<Kind>
    ensures { result ≡ spec.misplaced_by kind tag owned name.now }
{
    match kind {
        AttrKind::Plain => None,
        AttrKind::Slot => {
            if is_slot(tag) {
                Some(Kind::OutOfScope)
            } else if owned {
                None
            } else {
                Some(Kind::Syntax)
            }
        }
        _ => {
            if name.is_empty() || !suits(kind, tag, name) {
                Some(Kind::Syntax)
            } else {
                None
            }
        }
    }
}

/// Why an attribute can't stand on the tag by its name, if it can't. `owned` says that the tag is a direct child of a
/// component.
#[tactic(auto, unfolding(crate::specs::Directives::misplaced))]
pub(crate) fn misplaced(tag: Tag, owned: bool, z: &[u8]) -> Option<Kind>
    ensures { result ≡ spec.misplaced tag owned z.now }
{
    if name_at(z).is_empty() {
        return Some(Kind::Syntax);
    }
    if is_left_out(z) {
        return Some(Kind::OutOfScope);
    }
    misplaced_by(kind_of(z), tag, owned, given_name(z))
}

/// What the braces of a directive hold, or `None` for what isn't one.
pub(crate) fn filling(kind: AttrKind) -> Option<Filling>
    ensures { result ≡ spec.filling kind }
{
    match kind {
        AttrKind::On | AttrKind::Class => Some(Filling::Value),
        AttrKind::Bind => Some(Filling::Target),
        AttrKind::Let => Some(Filling::Name),
        AttrKind::Plain | AttrKind::Slot => None,
    }
}

fn is_bare(value: &AttrValue) -> bool
    ensures { result ≡ spec.is_bare value.now }
{
    match value {
        AttrValue::Bare => true,
        AttrValue::Parts(_) => false,
    }
}

fn misvalued_plain(tag: Tag, name: &str, value: &AttrValue) -> Option<Kind>
    ensures { result ≡ spec.misvalued_plain tag name.now value.now }
{
    if is_literal(value) {
        None
    } else if is_input(tag) && name == "type" {
        Some(Kind::OutOfScope)
    } else if is_slot(tag) && name == "name" {
        Some(Kind::Syntax)
    } else {
        None
    }
}

fn misvalued_by(kind: AttrKind, tag: Tag, name: &str, value: &AttrValue) -> Option<Kind>
    ensures { result ≡ spec.misvalued_by kind tag name.now value.now }
{
    match kind {
        AttrKind::Plain => misvalued_plain(tag, name, value),
        AttrKind::Slot => {
            if is_literal(value) {
                None
            } else {
                Some(Kind::Syntax)
            }
        }
        AttrKind::On => None,
        _ => {
            if is_bare(value) && !is_name(name.as_bytes()) {
                Some(Kind::Syntax)
            } else {
                None
            }
        }
    }
}

/// Why an attribute can't have this value, if it can't.
#[tactic(auto, unfolding(crate::specs::Directives::misvalued))]
pub(crate) fn misvalued(tag: Tag, z: &[u8], value: &AttrValue) -> Option<Kind>
    ensures { result ≡ spec.misvalued tag z.now value.now }
{
    misvalued_by(kind_of(z), tag, given_name(z), value)
}
