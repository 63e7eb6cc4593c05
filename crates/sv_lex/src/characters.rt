// Characters of a text that is UTF-8, by their classes.
ghost use Rattle.std.specs.Prelude.{◌≡◌, ◌≤◌, length};
ghost use Rattle.sv_lex.specs.Characters as spec;

use bstr::decode_utf8;
use unicode_ident::{is_xid_continue, is_xid_start};

/// The classes of characters that the grammar speaks of.
#[derive(Clone, Copy)]
pub enum Class {
    Space,
    NameStart,
    NameRest,
}

fn is_space(c: char) -> bool
    ensures { result ≡ spec.is_space c }
{
    c == ' ' || ('\t' <= c && c <= '\r') || c == '\u{A0}' || c == '\u{FEFF}'
}

fn is_in(class: Class, c: char) -> bool
    ensures { result ≡ spec.is_in class c }
{
    match class {
        Class::Space => is_space(c),
        Class::NameStart => is_xid_start(c) || c == '_',
        Class::NameRest => is_xid_continue(c),
    }
}

/// How many bytes the character at the front takes, where it is of the class, and else 0.
#[tactic(auto, unfolding(crate::specs::Characters::char_len))]
pub fn char_len(class: Class, z: &[u8]) -> usize
    ensures value { result ≡ spec.char_len class z.now }
    ensures within { result ≤ length z.now }
{
    let (found, size) = decode_utf8(z);
    match found {
        Some(c) => { if is_in(class, c) { size } else { 0 } }
        None => 0,
    }
}
