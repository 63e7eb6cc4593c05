// Selectors, and the elements that match them.
use crate::trees::tree_of;
use std::alloc::Global;
use sv_base::NoMemory;
use sv_document::Node;
use sv_rows::push_part;
use sv_select::{Combinator, Compound, Link, Match, Part, SelectError, Selector, matches, parse};

/// The selector of a text, or `none`.
pub fn selector_of(alloc: Global, text: &str) -> Result<Option<Selector>, NoMemory> {
    match parse(alloc, text) {
        Ok(selector) => Ok(Some(selector)),
        Err(SelectError::BadSelector) => Ok(None),
        Err(SelectError::NoMemory) => Err(NoMemory),
    }
}

/// A selector, part by part.
pub fn written(alloc: Global, row: &str) -> Result<String, NoMemory> {
    let Some(selector) = selector_of(alloc, row)? else {
        return Ok(String::from_str(alloc, "none")?);
    };
    let mut line = String::new(alloc);
    for link in &selector.links {
        push_link(&mut line, link)?;
    }
    Ok(line)
}

fn push_link(line: &mut String, link: &Link) -> Result<(), NoMemory> {
    let gap = match link.combinator {
        Combinator::Child => " > ",
        Combinator::Descendant => " >> ",
    };
    let Compound { tag, parts } = &link.compound;
    push_part(line, gap, tag.as_ref().map_or("*", |tag| tag.as_str()))?;
    for part in parts {
        push_mark(line, part)?;
    }
    Ok(())
}

fn push_mark(line: &mut String, part: &Part) -> Result<(), NoMemory> {
    match part {
        Part::Id(id) => push_part(line, " #", id.as_str()),
        Part::Class(word) => push_part(line, " .", word.as_str()),
    }
}

/// The elements of a tree that match a selector.
pub fn matching(alloc: Global, row: &str) -> Result<String, NoMemory> {
    let (text, tree) = row.split_once(" | ").unwrap_or((row, ""));
    let tree = tree_of(alloc, tree)?;
    let Some(selector) = selector_of(alloc, text)? else {
        return Ok(String::from_str(alloc, "none")?);
    };
    let mut line = String::new(alloc);
    for found in &matches(alloc, tree.as_slice(), &selector)? {
        push_match(&mut line, found)?;
    }
    Ok(line)
}

fn push_match(line: &mut String, found: &Match<'_>) -> Result<(), NoMemory> {
    let Match { element, children } = *found;
    push_part(line, ", ", element.name.as_str())?;
    if let Some(id) = element.shown_id() {
        push_part(line, "#", id)?;
    }
    for node in children {
        if let Node::Text { text, .. } = node {
            push_part(line, " ", text.as_str())?;
        }
    }
    Ok(())
}
