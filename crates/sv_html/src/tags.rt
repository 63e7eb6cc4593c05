// The tags of elements, and texts.
ghost use Rattle.std.specs.Prelude.{◌≡◌, ◌++◌, OnOk, decimal};
ghost use Rattle.sv_html.specs.Html.{number_html, start_html, end_html, numbered_text_html};
ghost use Rattle.sv_html.specs.Tag.{element_of};

use crate::attributes::push_laid;
use crate::escape::push_bytes;
use crate::void::is_void;
use std::alloc::Global;
use sv_base::NoMemory;
use sv_tokens::{Attribute, Typed};

/// What an element shows of its own, and its printed number, if it has one.
#[derive(Clone, Copy)]
pub struct Tag<'a> {
    pub number: Option<u64>,
    pub name: &'a str,
    pub attributes: &'a [Attribute],
    pub typed: &'a Option<Typed>,
}

/// The tag that begins an element. It shows the element's printed number, if there is one, as the attribute `sv`.
pub fn push_start(alloc: Global, out: &mut Vec<u8>, tag: Tag<'_>) -> Result<(), NoMemory>
    ensures { OnOk result (out.new.items ≡ out.old.items ++ start_html tag.entry.number (element_of tag.entry)) }
{
    out.push(b'<')?;
    out.extend_from_slice(tag.name.as_bytes())?;
    push_number(alloc, out, " sv=\"", tag.number, "\"")?;
    push_laid(out, tag.attributes, tag.typed)?;
    out.push(b'>')?;
    Ok(())
}

/// The tag that ends an element of this name, which a void element doesn't have.
pub fn push_end(out: &mut Vec<u8>, name: &str) -> Result<(), NoMemory>
    ensures { OnOk result (out.new.items ≡ out.old.items ++ end_html name.now) }
{
    if is_void(name) {
        return Ok(());
    }
    out.extend_from_slice(b"</")?;
    out.extend_from_slice(name.as_bytes())?;
    out.push(b'>')?;
    Ok(())
}

/// A text. Its printed number, if there is one, stands in a comment before it.
pub fn push_text(
    alloc: Global,
    out: &mut Vec<u8>,
    number: Option<u64>,
    text: &str,
) -> Result<(), NoMemory>
    ensures { OnOk result (out.new.items ≡ out.old.items ++ numbered_text_html number text.now) }
{
    push_number(alloc, out, "<!--", number, "-->")?;
    push_bytes(out, text.as_bytes())
}

// A printed number between two texts, if there is one.
fn push_number(
    alloc: Global,
    out: &mut Vec<u8>,
    before: &str,
    number: Option<u64>,
    after: &str,
) -> Result<(), NoMemory>
    ensures { OnOk result (out.new.items ≡ out.old.items ++ number_html before.now after.now number) }
{
    match number {
        Some(number) => push_between(alloc, out, before, number, after),
        None => Ok(()),
    }
}

fn push_between(
    alloc: Global,
    out: &mut Vec<u8>,
    before: &str,
    number: u64,
    after: &str,
) -> Result<(), NoMemory>
    ensures { OnOk result (out.new.items ≡ out.old.items ++ (before.now ++ decimal number ++ after.now)) }
{
    let digits = number.to_string(alloc)?;
    out.extend_from_slice(before.as_bytes())?;
    out.extend_from_slice(digits.as_str().as_bytes())?;
    out.extend_from_slice(after.as_bytes())?;
    Ok(())
}
