// The parts of single nodes of a component, which are named by a path: the number of a node at the top, then of one among its
// children, and so on, with `!` behind the number of an each block for what shows where it has no rows.
ghost use Rattle.std.specs.Prelude.{◌<◌, length};

use crate::markup::{listed, read};
use crate::refusals::refused_at;
use crate::{LONGEST, statements};
use std::alloc::{AllocError, Global};
use sv_ast::{Branch, Component, Markup, Named, Nodes, ParseError, Stmt};
use sv_base::{Names, NoMemory, Span};
use sv_markup::parse_component;

/// The forms of the nodes that a node encloses: its path, ` | `, and the component.
pub fn nodes_inside(alloc: Global, row: &str) -> Result<String, NoMemory>
    requires { length row.now < LONGEST }
{
    let (path, text) = row.split_once(" | ").unwrap_or(("", row));
    match read(alloc, text.as_bytes()) {
        Ok(tree) => listed_inside(alloc, &tree.nodes, path),
        Err(error) => refused_at(alloc, error),
    }
}

fn listed_inside(alloc: Global, nodes: &Nodes, path: &str) -> Result<String, NoMemory> {
    match inside(nodes, path) {
        Some(nodes) => listed(alloc, nodes),
        None => Ok(String::from_str(alloc, "no nodes")?),
    }
}

// What the node of a path encloses.
fn inside<'a>(nodes: &'a Nodes, path: &str) -> Option<&'a Nodes> {
    let mut nodes = nodes;
    for word in path.split(' ') {
        nodes = enclosed(nodes, word)?;
    }
    Some(nodes)
}

// What the node of a number encloses.
fn enclosed<'a>(nodes: &'a Nodes, word: &str) -> Option<&'a Nodes> {
    match word.strip_suffix('!') {
        Some(number) => without_rows(node_at(nodes, number)?),
        None => children(node_at(nodes, word)?),
    }
}

fn node_at<'a>(nodes: &'a Nodes, number: &str) -> Option<&'a Markup> {
    nodes.as_slice().get(number.parse::<usize>().ok()?)
}

fn children(node: &Markup) -> Option<&Nodes> {
    match node {
        Markup::Element { children, .. } => Some(children),
        Markup::Comp { children, .. } => Some(children),
        Markup::Slot { children, .. } => Some(children),
        Markup::Each { body, .. } => Some(body),
        Markup::Key { body, .. } => Some(body),
        _ => None,
    }
}

fn without_rows(node: &Markup) -> Option<&Nodes> {
    match node {
        Markup::Each { none, .. } => none.as_ref(),
        _ => None,
    }
}

/// The parts of a node: its path, ` | `, and the component.
pub fn node(alloc: Global, row: &str) -> Result<String, NoMemory>
    requires { length row.now < LONGEST }
{
    let (path, text) = row.split_once(" | ").unwrap_or(("", row));
    let mut names = Names::empty(alloc);
    let read = parse_component(alloc, &mut names, 0, text.as_bytes());
    told_node(alloc, &names, read, path)
}

fn told_node(
    alloc: Global,
    names: &Names,
    read: Result<Component, ParseError>,
    path: &str,
) -> Result<String, NoMemory> {
    match read {
        Ok(tree) => node_of(alloc, names, &tree.nodes, path),
        Err(error) => refused_at(alloc, error),
    }
}

fn node_of(alloc: Global, names: &Names, nodes: &Nodes, path: &str) -> Result<String, NoMemory> {
    match found(nodes, path) {
        Some(node) => Ok(parts(alloc, names, node)?),
        None => Ok(String::from_str(alloc, "no node")?),
    }
}

fn found<'a>(nodes: &'a Nodes, path: &str) -> Option<&'a Markup> {
    match path.rsplit_once(' ') {
        Some((path, last)) => node_at(inside(nodes, path)?, last),
        None => node_at(nodes, path),
    }
}

// The parts of a node, with their places.
fn parts(alloc: Global, names: &Names, of: &Markup) -> Result<String, AllocError> {
    match of {
        Markup::Text { span, text } => text_parts(alloc, *span, text.as_str()),
        Markup::Element {
            span,
            name,
            attrs,
            ..
        } => element_parts(alloc, *span, name.as_str(), attrs.len()),
        Markup::If { span, arms, .. } => if_parts(alloc, *span, arms.as_slice()),
        Markup::Each { .. } => each_parts(alloc, names, of),
        Markup::Key { span, value, .. } => key_parts(alloc, *span, value.span),
        _ => String::from_str(alloc, "another node"),
    }
}

// A word and a place.
fn placed(alloc: Global, word: &str, at: Span) -> Result<String, AllocError> {
    format!(in alloc; "{word} {}..{}", at.from, at.to)
}

// Appends a word and a place behind others.
fn push_place(line: &mut String, word: &str, at: Span) -> Result<(), AllocError> {
    write!(line, ", {word} {}..{}", at.from, at.to)
}

fn text_parts(alloc: Global, at: Span, text: &str) -> Result<String, AllocError> {
    let mut line = placed(alloc, "Text", at)?;
    write!(line, " {text}")?;
    Ok(line)
}

fn element_parts(alloc: Global, at: Span, name: &str, count: usize) -> Result<String, AllocError> {
    let mut line = placed(alloc, "Element", at)?;
    write!(line, " {name}, attributes: {count}")?;
    Ok(line)
}

fn if_parts(alloc: Global, at: Span, arms: &[Branch]) -> Result<String, AllocError> {
    let mut line = placed(alloc, "If", at)?;
    for arm in arms {
        push_place(&mut line, "test", arm.test.span)?;
    }
    Ok(line)
}

fn key_parts(alloc: Global, at: Span, value: Span) -> Result<String, AllocError> {
    let mut line = placed(alloc, "Key", at)?;
    push_place(&mut line, "value", value)?;
    Ok(line)
}

fn each_parts(alloc: Global, names: &Names, of: &Markup) -> Result<String, AllocError> {
    let Markup::Each {
        span,
        list,
        item,
        index,
        key,
        ..
    } = of
    else {
        return String::from_str(alloc, "no rows");
    };
    let mut line = placed(alloc, "Each", *span)?;
    push_place(&mut line, "list", list.span)?;
    push_named(&mut line, names, item)?;
    if let Some(index) = index {
        push_named(&mut line, names, index)?;
    }
    if let Some(key) = key {
        push_place(&mut line, "key", key.span)?;
    }
    Ok(line)
}

fn push_named(line: &mut String, names: &Names, of: &Named) -> Result<(), AllocError> {
    write!(line, ", name {}", names.text(of.name).unwrap_or("?"))
}

/// The tags at the top of the component of the file 3, where the name `B` has the number 0 before.
pub fn tags(alloc: Global, text: &[u8]) -> Result<String, NoMemory>
    requires { length text.now < LONGEST }
{
    let mut names = Names::empty(alloc);
    names.intern("B")?;
    let read = parse_component(alloc, &mut names, 3, text);
    told_tags(alloc, &names, read)
}

fn told_tags(
    alloc: Global,
    names: &Names,
    read: Result<Component, ParseError>,
) -> Result<String, NoMemory> {
    match read {
        Ok(tree) => tags_of(alloc, names, &tree),
        Err(error) => refused_at(alloc, error),
    }
}

// The file of a component, its tags, and how many names there are.
fn tags_of(alloc: Global, names: &Names, tree: &Component) -> Result<String, NoMemory> {
    let mut line = format!(in alloc; "file {}", tree.file)?;
    for node in tree.nodes.as_slice() {
        push_tag(&mut line, node)?;
    }
    write!(line, ", names: {}", names.len())?;
    Ok(line)
}

// Appends the number of a component's name, or the name of a slot with how many attributes it has.
fn push_tag(line: &mut String, node: &Markup) -> Result<(), AllocError> {
    match node {
        Markup::Comp { name, .. } => write!(line, ", component {}", name.0),
        Markup::Slot { name, attrs, .. } => {
            write!(line, ", slot '{}' with {}", name.as_str(), attrs.len())
        }
        _ => line.push_str(", another node"),
    }
}

/// How many statements the script of a component has.
pub fn statement_count(alloc: Global, text: &[u8]) -> Result<String, NoMemory>
    requires { length text.now < LONGEST }
{
    match read(alloc, text) {
        Ok(tree) => Ok(tree.script.stmts.len().to_string(alloc)?),
        Err(error) => refused_at(alloc, error),
    }
}

/// The first statement of the script of a component, and its place.
pub fn first_statement(alloc: Global, text: &[u8]) -> Result<String, NoMemory>
    requires { length text.now < LONGEST }
{
    match read(alloc, text) {
        Ok(tree) => first_of(alloc, tree.script.stmts.as_slice()),
        Err(error) => refused_at(alloc, error),
    }
}

fn first_of(alloc: Global, stmts: &[Stmt]) -> Result<String, NoMemory> {
    match stmts.first() {
        Some(stmt) => Ok(placed(alloc, statements::form(stmt), stmt.span)?),
        None => Ok(String::new(alloc)),
    }
}
