// Nodes of a document, as words: `1=a` is a text with the mark 1, `2:p` an element with the mark 2 and nothing in it, and `2:p[` one in which
// stands what follows, up to `]`. Behind the name of an element stand its attributes and what was typed, as in a shape.
use crate::shapes::{Head, head_of, number};
use std::alloc::Global;
use sv_base::{NoMemory, Text};
use sv_document::{Element, Node, Nodes};
use sv_list::Items;
use sv_value::Inst;

// An element that isn't ended yet, with its children so far.
#[derive(Drop)]
struct Open {
    element: Element,
    children: Nodes,
}

/// The nodes of some words.
pub fn tree(alloc: Global, words: &str) -> Result<Nodes, NoMemory> {
    let mut top = Nodes::new(alloc);
    let mut open = Vec::new(alloc);
    for word in words.split_whitespace() {
        place(alloc, &mut top, &mut open, word)?;
    }
    Ok(top)
}

fn place(alloc: Global, top: &mut Nodes, open: &mut Vec<Open>, word: &str) -> Result<(), NoMemory> {
    if word == "]" {
        return end(top, open);
    }
    let Some((mark, rest)) = word.split_once(':') else {
        let text = text(alloc, word)?;
        return put(top, open, text);
    };
    let element = element(alloc, number(mark), rest.trim_end_matches('['))?;
    let children = Nodes::new(alloc);
    if word.ends_with('[') {
        return Ok(open.push(Open { element, children })?);
    }
    put(top, open, Node::Element { element, children })
}

fn text(alloc: Global, word: &str) -> Result<Node, NoMemory> {
    let (mark, shown) = word.split_once('=').unwrap_or((word, ""));
    Ok(Node::Text {
        mark: number(mark),
        text: Text::new(alloc, shown)?,
    })
}

fn element(alloc: Global, mark: u64, words: &str) -> Result<Element, NoMemory> {
    let Head {
        name,
        attributes,
        typed,
    } = head_of(alloc, words)?;
    Ok(Element {
        inst: Inst { key: 0, number: 1 },
        mark,
        name,
        attributes,
        typed,
        listeners: Items::new(alloc),
    })
}

// Ends the element that was begun last.
fn end(top: &mut Nodes, open: &mut Vec<Open>) -> Result<(), NoMemory> {
    match open.pop() {
        Some(Open { element, children }) => put(top, open, Node::Element { element, children }),
        None => Ok(()),
    }
}

// Puts a node last where nodes stand now.
fn put(top: &mut Nodes, open: &mut Vec<Open>, node: Node) -> Result<(), NoMemory> {
    match open.last_mut() {
        Some(last) => last.children.push(node),
        None => top.push(node),
    }
}
