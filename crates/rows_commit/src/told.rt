// What is told, and the page, in words: 0 is the page, and as a place the end.
use std::alloc::{AllocError, Global};
use std::str;
use sv_base::NoMemory;
use sv_dom::{Dom, print};
use sv_rows::push_part;
use sv_tokens::{Attr, Change, Typed, What};

/// Some changes, with `, ` between, or `none`.
pub fn all_told(alloc: Global, changes: &[Change]) -> Result<String, NoMemory> {
    let mut all = String::new(alloc);
    for change in changes {
        push_part(&mut all, ", ", told(alloc, change)?.as_str())?;
    }
    if all.is_empty() {
        all.push_str("none")?;
    }
    Ok(all)
}

/// The text of a page, with or without printed numbers.
pub fn printed(alloc: Global, page: &Dom, numbers: bool) -> Result<String, NoMemory> {
    let text = print(alloc, page, numbers)?;
    Ok(String::from_str(alloc, str::from_utf8(&text).unwrap_or("no text"))?)
}

// What is told.
fn told(alloc: Global, change: &Change) -> Result<String, AllocError> {
    match change {
        Change::Make {
            serial,
            parent,
            before,
            what,
        } => {
            let made = what_told(alloc, what)?;
            format!(in alloc; "make {serial} {made} in {parent} before {before}")
        }
        Change::SetText { serial, text } => format!(in alloc; "{serial} is '{}'", text.as_str()),
        Change::SetAttr {
            serial,
            name,
            attr,
            ..
        } => {
            let value = attr_told(attr);
            format!(in alloc; "{serial} has {} '{value}'", name.as_str())
        }
        Change::DropAttr { serial, slot } => format!(in alloc; "{serial} has nothing at {slot}"),
        Change::SetTyped { serial, typed } => typed_told(alloc, *serial, typed),
        Change::Move { serial, before } => format!(in alloc; "move {serial} before {before}"),
        Change::Remove { serial } => format!(in alloc; "remove {serial}"),
    }
}

fn what_told(alloc: Global, what: &What) -> Result<String, AllocError> {
    match what {
        What::Element(name) => format!(in alloc; "<{}>", name.as_str()),
        What::Text(text) => format!(in alloc; "'{}'", text.as_str()),
    }
}

fn attr_told(attr: &Attr) -> &str {
    match attr {
        Attr::Flag => "",
        Attr::Text(text) => text.as_str(),
    }
}

fn typed_told(alloc: Global, serial: u64, typed: &Option<Typed>) -> Result<String, AllocError> {
    match typed {
        Some(Typed::Text(text)) => format!(in alloc; "{serial} typed '{}'", text.as_str()),
        Some(Typed::Checked(checked)) => format!(in alloc; "{serial} checked {checked}"),
        None => format!(in alloc; "{serial} nothing typed"),
    }
}
