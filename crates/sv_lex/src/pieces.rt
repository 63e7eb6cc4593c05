// Texts that are read piece by piece.
ghost use Rattle.std.specs.Prelude.{◌≡◌, ◌≤◌, length};
ghost use Rattle.sv_lex.specs.Pieces as spec;

use crate::characters::{Class, char_len};
use crate::comments::blank_len;
use crate::strings::{Quote, written_len};

/// What a piece is: white space or a comment, a character that a name goes on with, or a character of a text.
#[derive(Clone, Copy)]
pub enum Piece {
    Blank,
    NameRest,
    Written(Quote),
}

/// How many bytes the piece at the front takes, or 0 where there is none.
fn piece_len(piece: Piece, z: &[u8]) -> usize
    ensures value { result ≡ spec.piece_len piece z.now }
    ensures within { result ≤ length z.now }
{
    match piece {
        Piece::Blank => blank_len(z),
        Piece::NameRest => char_len(Class::NameRest, z),
        Piece::Written(quote) => written_len(quote, z),
    }
}

/// The text behind the pieces at its front.
pub fn rest(piece: Piece, mut z: &[u8]) -> &[u8]
    ensures value { result.now ≡ spec.rest piece z.entry.now }
    ensures within { length result.now ≤ length z.entry.now }
{
    loop {
        let len = piece_len(piece, z);
        if len == 0 {
            return z;
        }
        z = &z[len..];
    }
}

/// How many bytes the pieces at the front take.
#[tactic(auto, unfolding(crate::specs::Pieces::run_len))]
pub fn run_len(piece: Piece, z: &[u8]) -> usize
    ensures value { result ≡ spec.run_len piece z.now }
    ensures within { result ≤ length z.now }
{
    z.len() - rest(piece, z).len()
}
