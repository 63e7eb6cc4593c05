// A page tree that follows nodes, step by step: the steps stand in a row with ` > ` between.
use crate::told::{all_told, printed};
use crate::trees::tree;
use std::alloc::Global;
use std::str;
use sv_audience::{Audience, hear, push_reports};
use sv_base::NoMemory;
use sv_follow::PageTree;
use sv_watch::{Mirror, Watcher};

/// The changes that are told of the last step.
pub fn changes(alloc: Global, row: &str) -> Result<String, NoMemory> {
    let (page, audience) = followed(alloc, row)?;
    drop(audience);
    all_told(alloc, page.changes())
}

/// The page behind all steps; and if it is another, the one that the changes of all steps make of the empty page.
pub fn page(alloc: Global, row: &str) -> Result<String, NoMemory> {
    let (page, audience) = followed(alloc, row)?;
    let shown = printed(alloc, page.page(), false)?;
    let made = match audience.watchers.first() {
        Some(mirror) => mirror.report(alloc)?,
        None => Vec::new(alloc),
    };
    let made = str::from_utf8(&made).unwrap_or("no text");
    if made == shown.as_str() {
        return Ok(shown);
    }
    Ok(format!(in alloc; "{} but {made}", shown.as_str())?)
}

/// The page behind all steps with its printed numbers, which are given behind each step.
pub fn numbers(alloc: Global, row: &str) -> Result<String, NoMemory> {
    let (page, audience) = followed(alloc, row)?;
    drop(audience);
    printed(alloc, page.page(), true)
}

/// What those who watch report behind all steps.
pub fn reports(alloc: Global, row: &str) -> Result<String, NoMemory> {
    let (page, audience) = followed(alloc, row)?;
    drop(page);
    let mut text = Vec::new(alloc);
    push_reports(alloc, &mut text, &audience.watchers)?;
    Ok(String::from_utf8_lossy(alloc, &text)?)
}

// The page behind all steps, and a mirror that heard how it came there.
fn followed(alloc: Global, row: &str) -> Result<(PageTree, Audience<Mirror>), NoMemory> {
    let mut page = PageTree::new(alloc)?;
    let mut audience = Audience::new(alloc);
    audience.watchers.push(Mirror::new(alloc)?)?;
    for words in row.split(" > ") {
        let nodes = tree(alloc, words)?;
        page = hear(page, nodes.as_slice(), &mut audience)?;
        page.number();
    }
    Ok((page, audience))
}
