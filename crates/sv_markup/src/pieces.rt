// What begins at the front of markup.
ghost use Rattle.std.specs.Prelude.{◌≡◌, ◌≤◌, ◌+◌, length, IsTrue};
ghost use Rattle.sv_markup.specs.Pieces as spec;

use std::str;
use sv_lex::byte;
use sv_tags::{Class, front_len};

/// The forms of nodes.
#[derive(Clone, Copy)]
pub enum Form {
    /// Text between tags.
    Text,
    /// An expression in braces.
    Hole,
    Element,
    Component,
    Slot,
    If,
    Each,
    Key,
}

/// What begins at the front of a text.
#[derive(Clone, Copy)]
pub enum Piece {
    /// Nothing: the text ends there, or an end tag, a branch or the end of a block comes.
    End,
    Comment,
    Script,
    Style,
    Node(Form),
    /// A form that is left out by name.
    LeftOut,
    /// What no form begins with.
    Unread,
}

fn is_small(b: u8) -> bool
    ensures { result ≡ spec.is_small b }
{
    b'a' <= b && b <= b'z'
}

fn is_capital(b: u8) -> bool
    ensures { result ≡ spec.is_capital b }
{
    b'A' <= b && b <= b'Z'
}

/// The name of the tag at the front: the ASCII letters, digits and `-` behind its `<`.
pub fn tag_name(z: &[u8]) -> &str
    requires { 1 ≤ length z.now }
    ensures value { result.now ≡ spec.tag_name z.now }
    ensures within { 1 + length result.now ≤ length z.now }
{
    let inside = &z[1..];
    match str::from_utf8(&inside[..front_len(Class::TagRest, inside)]) {
        Ok(name) => name,
        Err(_) => unreachable!(),
    }
}

// What the tag of a name begins that is no component's.
fn by_name(name: &str) -> Piece
    ensures value { result ≡ spec.by_name name.now }
    ensures within { spec.least_len result ≤ 1 + length name.now }
{
    match name {
        "script" => Piece::Script,
        "style" => Piece::Style,
        "slot" => Piece::Node(Form::Slot),
        "textarea" => Piece::LeftOut,
        _ => Piece::Node(Form::Element),
    }
}

// What begins with `<`.
fn tag(z: &[u8]) -> Piece
    requires { 1 ≤ length z.now }
    ensures value { result ≡ spec.tag z.now }
    ensures within { spec.least_len result ≤ length z.now }
{
    if z.starts_with(b"<!--") {
        Piece::Comment
    } else if z.starts_with(b"</") {
        Piece::End
    } else if z.starts_with(b"<svelte:") {
        Piece::LeftOut
    } else if is_small(byte(z, 1)) {
        by_name(tag_name(z))
    } else if is_capital(byte(z, 1)) {
        Piece::Node(Form::Component)
    } else {
        Piece::Unread
    }
}

/// Whether the text goes on with a word and white space.
#[tactic(auto, unfolding(crate::specs::Pieces::begins_word))]
pub fn begins_word(word: &[u8], z: &[u8]) -> bool
    ensures value { result ≡ spec.begins_word word.now z.now }
    ensures within { IsTrue result → length word.now ≤ length z.now }
{
    z.starts_with(word) && front_len(Class::Blank, &z[word.len()..]) != 0
}

// What begins with `{#`.
fn block(z: &[u8]) -> Piece
    ensures value { result ≡ spec.block z.now }
    ensures within { spec.least_len result ≤ length z.now }
{
    if begins_word(b"{#if", z) {
        Piece::Node(Form::If)
    } else if begins_word(b"{#each", z) {
        Piece::Node(Form::Each)
    } else if begins_word(b"{#key", z) {
        Piece::Node(Form::Key)
    } else if z.starts_with(b"{#await") {
        Piece::LeftOut
    } else {
        Piece::Unread
    }
}

// What begins with `{@`.
fn special(z: &[u8]) -> Piece
    ensures value { result ≡ spec.special z.now }
    ensures within { spec.least_len result ≤ length z.now }
{
    if z.starts_with(b"{@html") || z.starts_with(b"{@debug") || z.starts_with(b"{@const") {
        Piece::LeftOut
    } else {
        Piece::Unread
    }
}

// What begins with `{`.
fn brace(z: &[u8]) -> Piece
    requires { 1 ≤ length z.now }
    ensures value { result ≡ spec.brace z.now }
    ensures within { spec.least_len result ≤ length z.now }
{
    if z.starts_with(b"{#") {
        block(z)
    } else if z.starts_with(b"{@") {
        special(z)
    } else if z.starts_with(b"{:") || (z.starts_with(b"{/") && is_small(byte(z, 2))) {
        Piece::End
    } else {
        Piece::Node(Form::Hole)
    }
}

/// What begins at the front of a text.
#[tactic(auto, unfolding(crate::specs::Pieces::piece_at))]
pub fn piece_at(z: &[u8]) -> Piece
    ensures value { result ≡ spec.piece_at z.now }
    ensures within { spec.least_len result ≤ length z.now }
{
    if z.is_empty() {
        return Piece::End;
    }
    match z[0] {
        b'<' => tag(z),
        b'{' => brace(z),
        b'}' => Piece::Unread,
        _ => Piece::Node(Form::Text),
    }
}

impl Piece {
    /// Whether nothing begins.
    pub fn is_end(self) -> bool
        ensures { result ≡ spec.is_end self }
    {
        match self {
            Piece::End => true,
            _ => false,
        }
    }
}
