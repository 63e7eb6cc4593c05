// Verdicts.
use crate::selectors::selector_of;
use crate::trees::{spaced, tree_of};
use std::alloc::Global;
use sv_base::NoMemory;
use sv_checks::{Check, Report};
use sv_steps::Want;

// The lines of a check of a tree by a selector.
fn lines(alloc: Global, row: &str, want: &Want) -> Result<String, NoMemory> {
    let (text, tree) = row.split_once(" | ").unwrap_or((row, ""));
    let tree = tree_of(alloc, tree)?;
    let Some(selector) = selector_of(alloc, text)? else {
        return Ok(String::from_str(alloc, "none")?);
    };
    let mut report = Report::new(alloc);
    report.check(7, tree.as_slice(), &Check { selector, want })?;
    report.finish()?;
    Ok(String::from_utf8_lossy(alloc, report.text())?)
}

/// So many elements are wanted.
pub fn count(alloc: Global, number: &str, row: &str) -> Result<String, NoMemory> {
    let want = Want::Count(number.parse::<u32>().unwrap_or(0));
    lines(alloc, row, &want)
}

/// A text is wanted.
pub fn text(alloc: Global, row: &str) -> Result<String, NoMemory> {
    let (text, row) = row.split_once(" | ").unwrap_or(("", row));
    let want = Want::Text(spaced(alloc, text)?);
    lines(alloc, row, &want)
}

/// An attribute is wanted as a text.
pub fn attribute(alloc: Global, name: &str, row: &str) -> Result<String, NoMemory> {
    let (text, row) = row.split_once(" | ").unwrap_or(("", row));
    let want = Want::Attribute {
        name: spaced(alloc, name)?,
        shows: Some(spaced(alloc, text)?),
    };
    lines(alloc, row, &want)
}

/// An attribute is wanted as the empty text, as which a flag shows.
pub fn flag(alloc: Global, name: &str, row: &str) -> Result<String, NoMemory> {
    let want = Want::Attribute {
        name: spaced(alloc, name)?,
        shows: Some(spaced(alloc, "")?),
    };
    lines(alloc, row, &want)
}

/// An attribute isn't wanted.
pub fn absent(alloc: Global, name: &str, row: &str) -> Result<String, NoMemory> {
    let want = Want::Attribute {
        name: spaced(alloc, name)?,
        shows: None,
    };
    lines(alloc, row, &want)
}
