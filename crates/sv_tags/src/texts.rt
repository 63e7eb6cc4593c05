// Text between tags and in attributes.
ghost use Rattle.std.specs.Prelude.{◌≡◌, ◌≤◌, length, IfSome, IfOk};
ghost use Rattle.sv_lex.specs.Reader.{Reads};
ghost use Rattle.sv_tags.specs.Texts as spec;

use crate::classes::{Class, begins, front_len, is_blank};
use bstr::decode_utf8;
use std::alloc::Global;
use sv_ast::{Kind, ParseError};
use sv_base::{NoMemory, Text};
use sv_lex::{Source, byte};

/// The quotes of attribute values.
#[derive(Clone, Copy)]
pub enum Quote {
    Double,
    Single,
}

/// Where a text stands.
#[derive(Clone, Copy)]
pub enum Setting {
    /// Between tags.
    Body,
    /// In a value in quotes.
    Quoted(Quote),
    /// As a value without quotes.
    Unquoted,
}

/// The quote as a byte.
pub(crate) fn closing(quote: Quote) -> u8
    ensures { result ≡ spec.closing quote }
{
    match quote {
        Quote::Double => b'"',
        Quote::Single => b'\'',
    }
}

fn is_brace(b: u8) -> bool
    ensures { result ≡ spec.is_brace b }
{
    b == b'{' || b == b'}'
}

// Whether a text ends at the byte.
fn ends_at(setting: Setting, b: u8) -> bool
    ensures { result ≡ spec.ends_at setting b }
{
    match setting {
        Setting::Body => b == b'<' || is_brace(b),
        Setting::Quoted(quote) => b == closing(quote) || is_brace(b),
        Setting::Unquoted => {
            is_blank(b)
                || b == b'"'
                || b == b'\''
                || b == b'='
                || b == b'<'
                || b == b'>'
                || b == b'/'
                || b == b'`'
                || is_brace(b)
        }
    }
}

// How many bytes the reference at the front takes, or 0 where there is none.
#[tactic(auto, unfolding(crate::specs::Texts::reference_len))]
fn reference_len(z: &[u8]) -> usize
    ensures value { result ≡ spec.reference_len z.now }
    ensures within { result ≤ length z.now }
{
    if byte(z, 0) != b'&' {
        return 0;
    }
    let len = front_len(Class::Reference, &z[1..]);
    if 1 <= len && byte(z, len + 1) == b';' {
        len + 2
    } else {
        0
    }
}

// The character that the reference at the front stands for, or `None` for those that are left out.
fn meaning(z: &[u8]) -> Option<char>
    ensures { result ≡ spec.meaning z.now }
{
    if begins(b"&amp;", z) {
        Some('&')
    } else if begins(b"&lt;", z) {
        Some('<')
    } else if begins(b"&gt;", z) {
        Some('>')
    } else if begins(b"&quot;", z) {
        Some('"')
    } else if begins(b"&nbsp;", z) {
        Some('\u{A0}')
    } else {
        None
    }
}

// The character at the front of a text, and with how many bytes it is written. None where the text ends, or a reference
// is left out.
#[tactic(auto, unfolding(crate::specs::Texts::written))]
fn written(setting: Setting, z: &[u8]) -> Option<(char, usize)>
    ensures value { result ≡ spec.written setting z.now }
    ensures within { IfSome result (λ p. (1 ≤ p.1) × (p.1 ≤ length z.now)) }
{
    let len = reference_len(z);
    if len != 0 {
        return match meaning(z) {
            Some(c) => Some((c, len)),
            None => None,
        };
    }
    if ends_at(setting, byte(z, 0)) {
        return None;
    }
    let (found, size) = decode_utf8(z);
    match found {
        Some(c) => Some((c, size)),
        None => None,
    }
}

// The text at the front as far as it goes, and how many bytes it is written with.
fn content(alloc: Global, setting: Setting, z: &[u8]) -> Result<(Text, usize), NoMemory>
    ensures value { IfOk result (λ r. (r.0 ≡ spec.content setting z.now) × (r.1 ≡ spec.content_len setting z.now)) }
    ensures within { IfOk result (λ r. r.1 ≤ length z.now) }
{
    let mut text = String::new(alloc);
    let mut rest = z;
    while let Some((c, len)) = written(setting, rest) {
        text.push(c)?;
        rest = &rest[len..];
    }
    let text = Text::new(alloc, text.as_str())?;
    Ok((text, z.len() - rest.len()))
}

/// A text that isn't empty, as far as it goes, with its references read: `&amp;` `&lt;` `&gt;` `&quot;` `&nbsp;`. `Syntax`
/// comes where no text stands, and `OutOfScope` at the `&` of another reference, which is letters, digits or `#` between
/// `&` and `;` (HTML, 'Character references'). Another `&` is a character by itself.
#[tactic(auto, unfolding(crate::specs::Texts::text))]
pub fn text(alloc: Global, source: &mut Source<'_>, setting: Setting) -> Result<Text, ParseError>
    ensures { Reads (spec.text setting source.old) result source.new }
{
    let (text, len) = content(alloc, setting, source.text())?;
    source.pass(len);
    if reference_len(source.text()) != 0 {
        return Err(source.stop(Kind::OutOfScope));
    }
    if len == 0 {
        return Err(source.stop(Kind::Syntax));
    }
    Ok(text)
}
