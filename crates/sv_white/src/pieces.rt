// Nodes, as the rule of white space sees them.
ghost use Rattle.std.specs.Prelude.{◌≡◌, IfOk};
ghost use Rattle.sv_white.specs.White as spec;

use crate::join::joined;
use crate::strip::stripped;
use std::alloc::Global;
use sv_base::{NoMemory, Text};

/// A node: text, a part of its own that goes to a slot with a name, or another.
#[derive(Drop)]
pub enum Piece<T> {
    Words(Text),
    Apart(T),
    Other(T),
}

/// What is kept of nodes that stand beside one another. Texts are joined where nothing but parts of their own stands between them; then,
/// where the content `strips`, white space goes at its two ends, parts of their own aside, and text of which nothing is left. White space
/// is SPACE, TAB, LF, CR and FF (HTML, 'ASCII whitespace'). `NoMemory` comes only where memory runs out.
pub fn kept<T: Copy + Drop>(
    alloc: Global,
    pieces: &[Piece<T>],
    strips: bool,
) -> Result<Vec<Piece<T>>, NoMemory>
    ensures { IfOk result (λ kept. kept.items ≡ spec.kept strips pieces.now) }
{
    let joined = joined(alloc, pieces)?;
    if strips {
        stripped(alloc, &joined)
    } else {
        Ok(joined)
    }
}
