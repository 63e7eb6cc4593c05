// Trees of nodes, as they are written in rows.
use std::alloc::Global;
use sv_base::{NoMemory, Text};
use sv_document::{Element, Node, Nodes};
use sv_list::Items;
use sv_tokens::{Attr, Attribute, Typed};
use sv_value::Inst;

// An element that isn't ended yet, with its children so far.
#[derive(Drop)]
struct Open {
    element: Element,
    children: Nodes,
}

/// The nodes of a tree.
pub fn tree_of(alloc: Global, row: &str) -> Result<Nodes, NoMemory> {
    let mut top = Nodes::new(alloc);
    let mut open = Vec::new(alloc);
    for word in row.split_whitespace() {
        place(alloc, &mut top, &mut open, word)?;
    }
    Ok(top)
}

// A word of a tree.
fn place(alloc: Global, top: &mut Nodes, open: &mut Vec<Open>, word: &str) -> Result<(), NoMemory> {
    if let Some(name) = word.strip_suffix('[') {
        return Ok(open.push(opened(alloc, name)?)?);
    }
    if word == "]" {
        return end(top, open);
    }
    if let Some(text) = word.strip_prefix('\'') {
        let text = spaced(alloc, text)?;
        return put(top, open, Node::Text { mark: 0, text });
    }
    match open.last_mut() {
        Some(last) => give(alloc, &mut last.element, word),
        None => Ok(()),
    }
}

fn opened(alloc: Global, name: &str) -> Result<Open, NoMemory> {
    let element = Element {
        inst: Inst { key: 0, number: 1 },
        mark: 0,
        name: Text::new(alloc, name)?,
        attributes: Items::new(alloc),
        typed: None,
        listeners: Items::new(alloc),
    };
    Ok(Open {
        element,
        children: Nodes::new(alloc),
    })
}

// Ends the element that was begun last.
fn end(top: &mut Nodes, open: &mut Vec<Open>) -> Result<(), NoMemory> {
    match open.pop() {
        Some(Open { element, children }) => put(top, open, Node::Element { element, children }),
        None => Ok(()),
    }
}

// Puts a node last where nodes stand now.
fn put(top: &mut Nodes, open: &mut Vec<Open>, node: Node) -> Result<(), NoMemory> {
    match open.last_mut() {
        Some(last) => last.children.push(node),
        None => top.push(node),
    }
}

// Gives an element an attribute, or what a user left in it.
fn give(alloc: Global, element: &mut Element, word: &str) -> Result<(), NoMemory> {
    if let Some(attribute) = word.strip_prefix('@') {
        let attribute = attribute_as(alloc, attribute)?;
        return element.attributes.push(attribute);
    }
    if let Some(typed) = word.strip_prefix('~') {
        element.typed = Some(typed_as(alloc, typed)?);
    }
    Ok(())
}

fn attribute_as(alloc: Global, word: &str) -> Result<Attribute, NoMemory> {
    let (name, value) = match word.split_once('=') {
        Some((name, text)) => (name, Attr::Text(spaced(alloc, text)?)),
        None => (word, Attr::Flag),
    };
    Ok(Attribute {
        slot: 0,
        name: Text::new(alloc, name)?,
        value,
    })
}

fn typed_as(alloc: Global, word: &str) -> Result<Typed, NoMemory> {
    match word {
        "+" => Ok(Typed::Checked(true)),
        "-" => Ok(Typed::Checked(false)),
        text => Ok(Typed::Text(spaced(alloc, text)?)),
    }
}

/// A text with a space for each `_`.
pub fn spaced(alloc: Global, text: &str) -> Result<Text, NoMemory> {
    let text = text.replace(alloc, "_", " ")?;
    Text::new(alloc, text.as_str())
}
