// What pages print.
ghost use Rattle.std.specs.Prelude.{◌≢◌, IfOk};
ghost use Rattle.sv_tokens.specs.Counting.{Has};
ghost use Rattle.sv_tokens.specs.Token.{opens, texts};

use crate::pages::{add_text, give, lay, page_of, push_element, push_text};
use std::alloc::Global;
use sv_base::{NoMemory, Text};
use sv_dom::{Attr, Dom, Node, Typed, print};

// A page as it is printed, with the numbers that its nodes have.
fn printed(alloc: Global, dom: &Dom) -> Result<String, NoMemory> {
    let bytes = print(alloc, dom, true)?;
    Ok(String::from_utf8_lossy(alloc, &bytes)?)
}

/// A page of nodes with ` | ` between: elements by their names, and texts behind `'`.
pub fn nodes(alloc: Global, row: &str) -> Result<String, NoMemory> {
    let mut dom = Dom::new(alloc)?;
    for node in row.split(" | ") {
        match node.strip_prefix('\'') {
            Some(text) => push_text(alloc, &mut dom, text)?,
            None => push_element(alloc, &mut dom, node)?,
        };
    }
    printed(alloc, &dom)
}

/// An input with the attribute `i`: what was typed, ` | `, and an attribute that stands before that one.
pub fn input(alloc: Global, row: &str) -> Result<String, NoMemory> {
    let (typed, attribute) = row.split_once(" | ").unwrap_or((row, ""));
    let (mut dom, node) = typed_input(alloc, typed_as(alloc, typed)?)?;
    if let Some((name, attr)) = attribute_as(alloc, attribute)? {
        give(alloc, &mut dom, node, 3, name, attr)?;
    }
    printed(alloc, &dom)
}

// What was typed: a text behind `'`, `checked`, `unchecked`, or nothing.
fn typed_as(alloc: Global, word: &str) -> Result<Option<Typed>, NoMemory> {
    match word {
        "checked" => Ok(Some(Typed::Checked(true))),
        "unchecked" => Ok(Some(Typed::Checked(false))),
        _ => match word.strip_prefix('\'') {
            Some(text) => Ok(Some(Typed::Text(Text::new(alloc, text)?))),
            None => Ok(None),
        },
    }
}

// An attribute as it is written, if one is.
fn attribute_as(alloc: Global, word: &str) -> Result<Option<(&str, Attr)>, NoMemory> {
    match word.split_once('=') {
        Some((name, text)) => Ok(Some((name, Attr::Text(Text::new(alloc, text)?)))),
        None if word.is_empty() => Ok(None),
        None => Ok(Some((word, Attr::Flag))),
    }
}

// An input with that typed state and the attribute `i`.
fn typed_input(alloc: Global, typed: Option<Typed>) -> Result<(Dom, Node), NoMemory>
    ensures stands { IfOk result (λ made. Has (opens made.1.0) made.0.tokens) }
    ensures below { IfOk result (λ made. made.1.0 ≢ 0) }
{
    let (mut dom, node) = page_of(alloc, "input")?;
    lay(&mut dom, node, typed)?;
    give(alloc, &mut dom, node, 7, "i", Attr::Flag)?;
    Ok((dom, node))
}

/// A paragraph of the text `a`, with numbers; and how it is printed once its text is another, an element stands behind it, and the
/// nodes without a number have got one: the text, ` | `, and the element.
pub fn numbered(alloc: Global, row: &str) -> Result<String, NoMemory> {
    let (text, element) = row.split_once(" | ").unwrap_or((row, ""));
    let (mut dom, node) = paragraph(alloc)?;
    let mut pages = printed(alloc, &dom)?;
    change(alloc, &mut dom, node, text)?;
    push_element(alloc, &mut dom, element)?;
    dom.number();
    pages.push_str(", ")?;
    pages.push_str(printed(alloc, &dom)?.as_str())?;
    Ok(pages)
}

// A paragraph of the text `a`, each with its number, and that text.
fn paragraph(alloc: Global) -> Result<(Dom, Node), NoMemory>
    ensures { IfOk result (λ made. Has (texts made.1.0) made.0.tokens) }
{
    let (mut dom, node) = page_of(alloc, "p")?;
    let text = add_text(alloc, &mut dom, node, "a")?;
    dom.number();
    Ok((dom, text))
}

fn change(alloc: Global, dom: &mut Dom, node: Node, text: &str) -> Result<(), NoMemory>
    requires { Has (texts node.0) dom.old.tokens }
{
    let told = dom.set_text(node, Text::new(alloc, text)?)?;
    drop(told);
    Ok(())
}
