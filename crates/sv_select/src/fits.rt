// Whether one element is what a compound asks for.
ghost use Rattle.std.specs.Prelude.{◌≡◌};
ghost use Rattle.std.specs.List.{list_all};
ghost use Rattle.sv_select.specs.Fits as spec;

use crate::borders::{Border, behind, front};
use crate::selector::{Compound, Part};
use crate::shown::shown_at;
use sv_base::Text;
use sv_document::Element;

fn is_word(own: &[u8], word: &[u8]) -> bool
    ensures { result ≡ spec.is_word word.now own.now }
{
    !own.is_empty() && own == word
}

// Whether it is one of the words of a text, between which white space stands.
fn has_word(text: &[u8], word: &[u8]) -> bool
    ensures { result ≡ spec.has_word word.now text.now }
{
    let mut left = Some(text);
    while let Some(z) = left {
        if is_word(front(Border::White, z), word) {
            return true;
        }
        left = behind(Border::White, z);
    }
    false
}

fn shows_id(element: &Element, id: &str) -> bool
    ensures { result ≡ spec.shows_id id.now element.now }
{
    match shown_at(element, "id") {
        Some(shown) => shown == id,
        None => false,
    }
}

fn has_class(element: &Element, word: &str) -> bool
    ensures { result ≡ spec.has_class word.now element.now }
{
    match shown_at(element, "class") {
        Some(shown) => has_word(shown.as_bytes(), word.as_bytes()),
        None => false,
    }
}

fn has_part(element: &Element, part: &Part) -> bool
    ensures { result ≡ spec.has_part element.now part.now }
{
    match part {
        Part::Id(id) => shows_id(element, id.as_str()),
        Part::Class(word) => has_class(element, word.as_str()),
    }
}

fn has_parts(element: &Element, parts: &[Part]) -> bool
    ensures { result ≡ list_all (spec.has_part element.now) parts.now }
{
    parts.iter().all(|part| has_part(element, part))
}

fn has_tag(element: &Element, tag: &Option<Text>) -> bool
    ensures { result ≡ spec.has_tag tag.now element.now }
{
    match tag {
        Some(tag) => element.name.as_str() == tag.as_str(),
        None => true,
    }
}

// Whether an element has the tag that is asked for, and all parts.
pub(crate) fn fits(compound: &Compound, element: &Element) -> bool
    ensures { result ≡ spec.fits compound.now element.now }
{
    has_tag(element, &compound.tag) && has_parts(element, compound.parts.as_slice())
}
