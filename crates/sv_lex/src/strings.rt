// What strings and templates are written with.
ghost use Rattle.std.specs.Prelude.{◌≡◌, ◌≤◌, ◌+◌, length, IfSome};
ghost use Rattle.sv_lex.specs.Strings as spec;

use crate::digits::{Base, digits_len, number};
use crate::front::byte;
use bstr::decode_utf8;

/// What closes a text: `'`, `"` or a back quote.
#[derive(Clone, Copy)]
pub enum Quote {
    Single,
    Double,
    Back,
}

/// The quote as a byte.
pub fn closing(quote: Quote) -> u8
    ensures { result ≡ spec.closing quote }
{
    match quote {
        Quote::Single => b'\'',
        Quote::Double => b'"',
        Quote::Back => b'`',
    }
}

// Whether no character of the text is written with this byte, the next one being `next`.
fn stops(quote: Quote, b: u8, next: u8) -> bool
    ensures { result ≡ spec.stops quote b next }
{
    match quote {
        Quote::Single => b == b'\'' || b == b'\n',
        Quote::Double => b == b'"' || b == b'\n',
        Quote::Back => b == b'`' || (b == b'$' && next == b'{'),
    }
}

// What a backslash makes of the byte behind it.
fn simple(b: u8) -> Option<char>
    ensures { result ≡ spec.simple b }
{
    match b {
        b'n' => Some('\n'),
        b't' => Some('\t'),
        b'r' => Some('\r'),
        b'\\' => Some('\\'),
        b'\'' => Some('\''),
        b'"' => Some('"'),
        b'`' => Some('`'),
        b'$' => Some('$'),
        _ => None,
    }
}

// The character that `{H}` stands for behind a `\u`, and how many bytes the whole escape takes.
#[tactic(auto, unfolding(crate::specs::Strings::by_code))]
fn by_code(z: &[u8]) -> Option<(char, usize)>
    ensures value { result ≡ spec.by_code z.now }
    ensures within { IfSome result (λ p. (1 ≤ p.1) × (p.1 ≤ length z.now + 2)) }
{
    if byte(z, 0) != b'{' {
        return None;
    }
    let digits = &z[1..];
    let len = digits_len(Base::Sixteen, digits);
    if len < 1 || 6 < len || byte(digits, len) != b'}' {
        return None;
    }
    let code = number(Base::Sixteen, 0x11_0000, &digits[..len]);
    match char::from_u32(code as u32) {
        Some(c) => Some((c, len + 4)),
        None => None,
    }
}

#[tactic(auto, unfolding(crate::specs::Strings::escape))]
fn escape(z: &[u8]) -> Option<(char, usize)>
    requires { 1 ≤ length z.now }
    ensures value { result ≡ spec.escape z.now }
    ensures within { IfSome result (λ p. (1 ≤ p.1) × (p.1 ≤ length z.now)) }
{
    match byte(z, 1) {
        b'u' => by_code(&z[2..]),
        b => match simple(b) {
            Some(c) => Some((c, 2)),
            None => None,
        },
    }
}

/// The character that is written at the front of the inside of a text, and how many bytes it is written with.
#[tactic(auto, unfolding(crate::specs::Strings::written))]
pub fn written(quote: Quote, z: &[u8]) -> Option<(char, usize)>
    ensures value { result ≡ spec.written quote z.now }
    ensures within { IfSome result (λ p. (1 ≤ p.1) × (p.1 ≤ length z.now)) }
{
    let b = byte(z, 0);
    if b == b'\\' {
        return escape(z);
    }
    if stops(quote, b, byte(z, 1)) {
        return None;
    }
    let (found, size) = decode_utf8(z);
    match found {
        Some(c) => Some((c, size)),
        None => None,
    }
}

/// How many bytes the character at the front of the inside of a text is written with, or 0 where none is.
#[tactic(auto, unfolding(crate::specs::Strings::written_len))]
pub fn written_len(quote: Quote, z: &[u8]) -> usize
    ensures value { result ≡ spec.written_len quote z.now }
    ensures within { result ≤ length z.now }
{
    match written(quote, z) {
        Some((_, size)) => size,
        None => 0,
    }
}
