// Compounds, as they are written.
ghost use Rattle.std.specs.Prelude.{◌≡◌};
ghost use Rattle.sv_select.specs.Compound as spec;
ghost use Rattle.sv_select.specs.Reads.{Reads};

use crate::borders::{Border, front, rest};
use crate::refusal::SelectError;
use crate::selector::{Compound, Part};
use crate::words::{is_tag, is_word, text_of};
use std::alloc::Global;
use sv_base::Text;
use sv_list::Items;

// The tag that is asked for; nothing and `*` ask for none.
fn tag_of(alloc: Global, word: &[u8]) -> Result<Option<Text>, SelectError>
    ensures { Reads result (spec.tag_of word.now) }
{
    if word.is_empty() || word == b"*".as_slice() {
        return Ok(None);
    }
    if !is_tag(word) {
        return Err(SelectError::BadSelector);
    }
    Ok(Some(text_of(alloc, word)?))
}

// A part by its mark.
fn part_of(alloc: Global, mark: u8, word: &[u8]) -> Result<Part, SelectError>
    ensures { Reads result (spec.part_of mark word.now) }
{
    if !is_word(word) {
        return Err(SelectError::BadSelector);
    }
    let text = text_of(alloc, word)?;
    if mark == b'#' {
        Ok(Part::Id(text))
    } else {
        Ok(Part::Class(text))
    }
}

// The parts of a text that begins with a mark, if it isn't empty.
fn parts_of(alloc: Global, marked: &[u8]) -> Result<Items<Part>, SelectError>
    ensures { Reads result (spec.parts_of (spec.marked marked.now)) }
{
    let mut parts = Items::new(alloc);
    let mut left = marked;
    while let Some((mark, behind)) = left.split_first() {
        parts.push(part_of(alloc, *mark, front(Border::Part, behind))?)?;
        left = rest(Border::Part, behind);
    }
    Ok(parts)
}

// The compound that a text is.
pub(crate) fn compound_of(alloc: Global, word: &[u8]) -> Result<Compound, SelectError>
    ensures { Reads result (spec.compound_of word.now) }
{
    let parts = parts_of(alloc, rest(Border::Part, word))?;
    let tag = tag_of(alloc, front(Border::Part, word))?;
    Ok(Compound { tag, parts })
}
