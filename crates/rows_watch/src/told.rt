// Watchers are told of changes: both stand in a row with ` > ` between, and changes with `; `. `picky-3` refuses its third change, and `tally-3`,
// which is this program's own, hears no more than three.
use crate::changes::change;
use crate::tally::Tally;
use std::alloc::Global;
use std::str;
use sv_base::NoMemory;
use sv_watch::{Counter, Mirror, Picky, Watcher, tell_all};

/// The reports of those that are left, and of those that are gone.
pub fn told(alloc: Global, row: &str) -> Result<String, NoMemory> {
    let (words, changes) = row.split_once(" > ").unwrap_or((row, ""));
    let mut list: Vec<Box<dyn Watcher>> = Vec::new(alloc);
    let mut gone: Vec<Box<dyn Watcher>> = Vec::new(alloc);
    for word in words.split_whitespace() {
        let (kind, count) = word.split_once('-').unwrap_or((word, ""));
        let count = count.parse::<u32>().unwrap_or(0);
        match kind {
            "mirror" => list.push(Box::new(alloc, Mirror::new(alloc)?)?)?,
            "counter" => list.push(Box::new(alloc, Counter::new(alloc))?)?,
            "picky" => list.push(Box::new(alloc, Picky::new(alloc, count))?)?,
            _ => list.push(Box::new(alloc, Tally::new(alloc, count))?)?,
        }
    }
    for words in changes.split("; ") {
        tell_all(&mut list, &mut gone, &change(alloc, words)?)?;
    }
    let mut all = String::from_str(alloc, "left")?;
    push_reports(alloc, &mut all, &list)?;
    all.push_str(" gone")?;
    push_reports(alloc, &mut all, &gone)?;
    Ok(all)
}

fn push_reports(
    alloc: Global,
    all: &mut String,
    watchers: &[Box<dyn Watcher>],
) -> Result<(), NoMemory> {
    for watcher in watchers {
        let report = watcher.report(alloc)?;
        all.push_str(" [")?;
        all.push_str(str::from_utf8(&report).unwrap_or("no text"))?;
        all.push_str("]")?;
    }
    Ok(())
}
