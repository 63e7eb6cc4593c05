// Tokens ahead.
ghost use Rattle.std.specs.Prelude.{◌≡◌, ◌≤◌, length};
ghost use Rattle.sv_lex.specs.Look as spec;

use crate::lexeme::Lexeme;
use crate::pieces::{Piece, rest};
use crate::token::token;

/// Whether both are one kind.
#[tactic(auto, unfolding(crate::specs::Look::same_lexeme))]
pub fn same_lexeme(a: Lexeme, b: Lexeme) -> bool
    ensures { result ≡ spec.same_lexeme a b }
{
    a == b
}

/// The text from its first token on, behind white space and comments.
#[tactic(auto, unfolding(crate::specs::Look::skip))]
pub fn skip(z: &[u8]) -> &[u8]
    ensures value { result.now ≡ spec.skip z.now }
    ensures within { length result.now ≤ length z.now }
{
    rest(Piece::Blank, z)
}

/// The kind of the first token of a text.
#[tactic(auto, unfolding(crate::specs::Look::first))]
pub fn first(z: &[u8]) -> Lexeme
    ensures { result ≡ spec.first z.now }
{
    token(skip(z)).0
}

/// The text behind its first token.
#[tactic(auto, unfolding(crate::specs::Look::first_len, crate::specs::Look::past))]
pub fn past(z: &[u8]) -> &[u8]
    ensures { result.now ≡ spec.past z.now }
{
    let ahead = skip(z);
    &ahead[token(ahead).1..]
}

/// Whether a line ends in the text.
#[tactic(auto, unfolding(crate::specs::Look::has_line_end))]
pub fn has_line_end(z: &[u8]) -> bool
    ensures { result ≡ spec.has_line_end z.now }
{
    z.iter().any(|b| *b == b'\n')
}
