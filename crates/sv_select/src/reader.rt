// Selectors, as they are written.
ghost use Rattle.std.specs.Prelude.{◌≡◌};
ghost use Rattle.sv_select.specs.Grammar as spec;
ghost use Rattle.sv_select.specs.Borders.{pieces};
ghost use Rattle.sv_select.specs.Reads.{Reads, Adds};
ghost use Rattle.sv_select.specs.declared.borders.Border.TheVariants as border;

use crate::borders::{Border, behind, front};
use crate::compound::compound_of;
use crate::refusal::SelectError;
use crate::selector::{Combinator, Link, Selector};
use std::alloc::Global;
use sv_list::Items;

fn push_link(
    alloc: Global,
    links: &mut Items<Link>,
    combinator: Combinator,
    word: &[u8],
) -> Result<(), SelectError>
    ensures { Adds result links.old links.new (spec.link_of combinator word.now) }
{
    let compound = compound_of(alloc, word)?;
    links.push(Link {
        combinator,
        compound,
    })?;
    Ok(())
}

// The compounds of a piece between two `>`, each below the one before it, the first with this combinator.
fn push_run(
    alloc: Global,
    links: &mut Items<Link>,
    combinator: Combinator,
    run: &[u8],
) -> Result<(), SelectError>
    ensures { Adds result links.old links.new (spec.run_of combinator (pieces border.Space run.now)) }
{
    let mut is_begun = false;
    let mut next = combinator;
    let mut left = Some(run);
    while let Some(z) = left {
        let word = front(Border::Space, z);
        if !word.is_empty() {
            push_link(alloc, links, next, word)?;
            next = Combinator::Descendant;
            is_begun = true;
        }
        left = behind(Border::Space, z);
    }
    if is_begun {
        Ok(())
    } else {
        Err(SelectError::BadSelector)
    }
}

// The links of a text.
fn links_of(alloc: Global, text: &[u8]) -> Result<Items<Link>, SelectError>
    ensures { Reads result (spec.links_of Combinator.Descendant (pieces border.Child text.now)) }
{
    let mut links = Items::new(alloc);
    let mut next = Combinator::Descendant;
    let mut left = Some(text);
    while let Some(z) = left {
        push_run(alloc, &mut links, next, front(Border::Child, z))?;
        next = Combinator::Child;
        left = behind(Border::Child, z);
    }
    Ok(links)
}

/// The selector that a text is; `BadSelector` comes exactly where it is none.
///
/// Compounds stand beside one another with `>` between an element and its child, and spaces at its sides or none, or with spaces
/// alone between an element and one somewhere below it. A compound is the name of a tag, `*` or nothing, and then parts: `#` with an
/// `id`, `.` with a word of the class. It isn't empty, and no space stands at the ends of the text.
pub fn parse(alloc: Global, text: &str) -> Result<Selector, SelectError>
    ensures { Reads result (spec.selector_of text.now) }
{
    let bytes = text.as_bytes();
    if bytes.starts_with(b" ") || bytes.ends_with(b" ") {
        return Err(SelectError::BadSelector);
    }
    Ok(Selector {
        links: links_of(alloc, bytes)?,
    })
}
