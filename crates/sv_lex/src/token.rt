// The token at the front of a text.
ghost use Rattle.std.specs.Prelude.{◌≡◌, ◌<◌, ◌≤◌, ◌+◌, length, slice_index};
ghost use Rattle.sv_lex.specs.Token as spec;

use crate::characters::{Class, char_len};
use crate::digits::{Base, digits_len};
use crate::front::byte;
use crate::lexeme::Lexeme;
use crate::pieces::{Piece, run_len};
use crate::signs::sign;
use crate::strings::{Quote, closing};
use crate::words::keyword;

/// A lexeme, and how many bytes it takes.
pub type Token = (Lexeme, usize);

/// How many bytes the name at the front takes, words that are no names included, or 0 where there is none.
#[tactic(auto, unfolding(crate::specs::Token::name_len))]
pub fn name_len(z: &[u8]) -> usize
    ensures value { result ≡ spec.name_len z.now }
    ensures within { result ≤ length z.now }
{
    let first = char_len(Class::NameStart, z);
    if first == 0 {
        return 0;
    }
    first + run_len(Piece::NameRest, &z[first..])
}

// A numeral is 0, or begins with another digit. No name follows it directly.
#[tactic(auto, unfolding(crate::specs::Token::numeral))]
fn numeral(z: &[u8]) -> Token
    requires { 1 ≤ length z.now }
    ensures value { result ≡ spec.numeral z.now }
    ensures within { result.1 ≤ length z.now }
{
    let len = if z[0] == b'0' {
        1
    } else {
        digits_len(Base::Ten, z)
    };
    if char_len(Class::NameStart, &z[len..]) == 0 {
        (Lexeme::Numeral, len)
    } else {
        (Lexeme::Bad, 1)
    }
}

// `$` directly before a name is a store name, and `$:` is a sign.
#[tactic(auto, unfolding(crate::specs::Token::store))]
fn store(z: &[u8]) -> Token
    requires { 1 ≤ length z.now }
    ensures value { result ≡ spec.store z.now }
    ensures within { result.1 ≤ length z.now }
{
    let name = &z[1..];
    let len = name_len(name);
    if len == 0 {
        return sign(z);
    }
    match keyword(&name[..len]) {
        Lexeme::Name => (Lexeme::Store, len + 1),
        _ => (Lexeme::Bad, 1),
    }
}

// A string, up to its closing quote.
#[tactic(auto, unfolding(crate::specs::Token::quoted))]
fn quoted(quote: Quote, z: &[u8]) -> Token
    requires { 1 ≤ length z.now }
    ensures value { result ≡ spec.quoted quote z.now }
    ensures within { result.1 ≤ length z.now }
{
    let inside = &z[1..];
    let len = run_len(Piece::Written(quote), inside);
    if byte(inside, len) == closing(quote) {
        (Lexeme::Quoted, len + 2)
    } else {
        (Lexeme::Bad, 1)
    }
}

// A token that begins with no letter and no `_`.
#[tactic(auto, unfolding(crate::specs::Token::other))]
fn other(z: &[u8]) -> Token
    requires { 1 ≤ length z.now }
    ensures value { result ≡ spec.other z.now }
    ensures within { result.1 ≤ length z.now }
{
    match z[0] {
        b'0'..=b'9' => numeral(z),
        b'$' => store(z),
        b'\'' => quoted(Quote::Single, z),
        b'"' => quoted(Quote::Double, z),
        b'/' if byte(z, 1) == b'*' => (Lexeme::Bad, 1),
        _ => sign(z),
    }
}

/// The token at the front.
#[tactic(auto, unfolding(crate::specs::Token::token))]
pub fn token(z: &[u8]) -> Token
    ensures value { result ≡ spec.token z.now }
    ensures within { result.1 ≤ length z.now }
{
    if z.is_empty() {
        return (Lexeme::End, 0);
    }
    let len = name_len(z);
    if len == 0 {
        other(z)
    } else {
        (keyword(&z[..len]), len)
    }
}
