// Texts beside one another.
ghost use Rattle.std.specs.Prelude.{◌≡◌, ◌++◌, [], ◌∷◌, IfOk, OnOk, string_bytes};
ghost use Rattle.sv_white.specs.White as spec;

use crate::pieces::Piece;
use std::alloc::Global;
use sv_base::{NoMemory, Text};

/// The pieces, with texts that stand beside one another as one.
pub(crate) fn joined<T: Copy + Drop>(
    alloc: Global,
    pieces: &[Piece<T>],
) -> Result<Vec<Piece<T>>, NoMemory>
    ensures { IfOk result (λ joined. joined.items ≡ spec.joined pieces.now) }
{
    let mut joined = Vec::new(alloc);
    let mut behind_text = false;
    for (i, piece) in pieces.iter().enumerate() {
        add_joined(alloc, &mut joined, behind_text, piece, &pieces[i + 1..])?;
        behind_text = is_behind_text(behind_text, piece);
    }
    Ok(joined)
}

// Whether text stands last behind a piece.
fn is_behind_text<T>(behind_text: bool, piece: &Piece<T>) -> bool
    ensures { result ≡ spec.is_behind_text behind_text piece.now }
{
    match piece {
        Piece::Words(_) => true,
        Piece::Apart(_) => behind_text,
        Piece::Other(_) => false,
    }
}

// Adds a piece, if it is no text that the one before took in.
fn add_joined<T: Copy + Drop>(
    alloc: Global,
    joined: &mut Vec<Piece<T>>,
    behind_text: bool,
    piece: &Piece<T>,
    more: &[Piece<T>],
) -> Result<(), NoMemory>
    ensures { OnOk result (joined.new.items ≡ joined.old.items ++ spec.joined_piece behind_text piece.now more.now) }
{
    match piece {
        Piece::Words(text) => {
            if !behind_text {
                joined.push(Piece::Words(with_text_ahead(alloc, text, more)?))?;
            }
        }
        Piece::Apart(x) => joined.push(Piece::Apart(*x))?,
        Piece::Other(x) => joined.push(Piece::Other(*x))?,
    }
    Ok(())
}

// A text with what it takes in.
fn with_text_ahead<T>(alloc: Global, text: &Text, more: &[Piece<T>]) -> Result<Text, NoMemory>
    ensures { IfOk result (λ whole. whole ≡ text.now ++ spec.text_ahead more.now) }
{
    let mut whole = String::from_str(alloc, text.as_str())?;
    for piece in more {
        match piece {
            Piece::Words(text) => whole.push_str(text.as_str())?,
            Piece::Apart(_) => {}
            Piece::Other(_) => break,
        }
    }
    Text::new(alloc, whole.as_str())
}
