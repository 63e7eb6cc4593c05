// White space at the ends.
ghost use Rattle.std.specs.Prelude.{◌≡◌, ◌++◌, IfOk, OnOk};
ghost use Rattle.sv_white.specs.White as spec;

use crate::pieces::Piece;
use std::alloc::Global;
use sv_base::{NoMemory, Text};

// An end of some content.
#[derive(Clone, Copy, Debug, PartialEq, Eq)]
enum End {
    Front,
    Back,
}

/// The pieces without white space at their two ends.
pub(crate) fn stripped<T: Copy + Drop>(
    alloc: Global,
    pieces: &[Piece<T>],
) -> Result<Vec<Piece<T>>, NoMemory>
    ensures { IfOk result (λ stripped. stripped.items ≡ spec.stripped pieces.now) }
{
    let mut front = trimmed(alloc, pieces, End::Front)?;
    front.reverse();
    let mut back = trimmed(alloc, &front, End::Back)?;
    back.reverse();
    Ok(back)
}

// The pieces, of which the first one is trimmed at an end where it is text.
fn trimmed<T: Copy + Drop>(
    alloc: Global,
    pieces: &[Piece<T>],
    end: End,
) -> Result<Vec<Piece<T>>, NoMemory>
    ensures { IfOk result (λ trimmed. trimmed.items ≡ spec.trimmed (spec.trim_at end) pieces.now) }
{
    let mut trimmed = Vec::new(alloc);
    let mut begun = false;
    for piece in pieces {
        add_trimmed(alloc, &mut trimmed, begun, piece, end)?;
        begun = begun || !matches!(piece, Piece::Apart(_));
    }
    Ok(trimmed)
}

// Adds a piece, trimmed at an end where nothing but parts of their own came before.
fn add_trimmed<T: Copy + Drop>(
    alloc: Global,
    trimmed: &mut Vec<Piece<T>>,
    begun: bool,
    piece: &Piece<T>,
    end: End,
) -> Result<(), NoMemory>
    ensures { OnOk result (trimmed.new.items ≡ trimmed.old.items ++ spec.trimmed_piece begun (spec.trim_at end) piece.now) }
{
    match piece {
        Piece::Words(text) => {
            if begun {
                trimmed.push(Piece::Words(text.share()?))?;
            } else {
                add_words(alloc, trimmed, trim(text.as_str(), end))?;
            }
        }
        Piece::Apart(x) => trimmed.push(Piece::Apart(*x))?,
        Piece::Other(x) => trimmed.push(Piece::Other(*x))?,
    }
    Ok(())
}

// Adds a text, if there is any of it.
fn add_words<T: Drop>(alloc: Global, pieces: &mut Vec<Piece<T>>, text: &str) -> Result<(), NoMemory>
    ensures { OnOk result (pieces.new.items ≡ pieces.old.items ++ spec.words text.now) }
{
    if !text.is_empty() {
        pieces.push(Piece::Words(Text::new(alloc, text)?))?;
    }
    Ok(())
}

fn trim(text: &str, end: End) -> &str
    ensures { result.now ≡ spec.trim_at end text.now }
{
    match end {
        End::Front => text.trim_ascii_start(),
        End::Back => text.trim_ascii_end(),
    }
}
