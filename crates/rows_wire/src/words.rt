// Items in words: 0 is the page, and as a place the end.
use std::alloc::{AllocError, Global};
use sv_tokens::{Attr, Change, Typed, What};
use sv_wire::{Item, Placed};

/// An item, behind its offset.
pub fn item(alloc: Global, placed: &Placed) -> Result<String, AllocError> {
    let at = placed.at;
    match &placed.item {
        Item::Change(told) => {
            let told = change(alloc, told)?;
            format!(in alloc; "{at} {}", told.as_str())
        }
        Item::Turn { target: true } => format!(in alloc; "{at} turn"),
        Item::Turn { target: false } => format!(in alloc; "{at} turn, no target"),
        Item::End => format!(in alloc; "{at} end"),
    }
}

fn change(alloc: Global, change: &Change) -> Result<String, AllocError> {
    match change {
        Change::Make {
            serial,
            parent,
            before,
            what,
        } => {
            let made = made(alloc, what)?;
            format!(in alloc;
                "make {serial} {} in {parent} before {before}",
                made.as_str()
            )
        }
        Change::SetText { serial, text } => format!(in alloc; "{serial} is '{}'", text.as_str()),
        Change::SetAttr {
            serial,
            slot,
            name,
            attr,
        } => {
            let value = value(attr);
            format!(in alloc; "{serial} has {} '{value}' at {slot}", name.as_str())
        }
        Change::DropAttr { serial, slot } => format!(in alloc; "{serial} has nothing at {slot}"),
        Change::SetTyped { serial, typed } => state(alloc, *serial, typed),
        Change::Move { serial, before } => format!(in alloc; "move {serial} before {before}"),
        Change::Remove { serial } => format!(in alloc; "remove {serial}"),
    }
}

fn made(alloc: Global, what: &What) -> Result<String, AllocError> {
    match what {
        What::Element(name) => format!(in alloc; "<{}>", name.as_str()),
        What::Text(text) => format!(in alloc; "'{}'", text.as_str()),
    }
}

fn value(attr: &Attr) -> &str {
    match attr {
        Attr::Flag => "",
        Attr::Text(text) => text.as_str(),
    }
}

fn state(alloc: Global, serial: u64, typed: &Option<Typed>) -> Result<String, AllocError> {
    match typed {
        Some(Typed::Text(text)) => format!(in alloc; "{serial} typed '{}'", text.as_str()),
        Some(Typed::Checked(checked)) => format!(in alloc; "{serial} checked {checked}"),
        None => format!(in alloc; "{serial} nothing typed"),
    }
}
