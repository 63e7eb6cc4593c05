// Components and modules: the form of each node, and of its parts.
ghost use Rattle.std.specs.Prelude.{◌<◌, length};

use crate::LONGEST;
use crate::refusals::{refused_at, with_count};
use std::alloc::Global;
use sv_ast::{Branch, Component, Markup, Module, Nodes, ParseError};
use sv_base::{Names, NoMemory};
use sv_markup::{parse_component, parse_module};
use sv_rows::push_part;

/// The component that is a text, with no names before it.
pub fn read(alloc: Global, text: &[u8]) -> Result<Component, ParseError>
    requires { length text.now < LONGEST }
{
    let mut names = Names::empty(alloc);
    parse_component(alloc, &mut names, 0, text)
}

/// The forms of a component's nodes, each with those of its parts; or why the text is none, and where.
pub fn component(alloc: Global, text: &[u8]) -> Result<String, NoMemory>
    requires { length text.now < LONGEST }
{
    match read(alloc, text) {
        Ok(tree) => forms(alloc, &tree.nodes),
        Err(error) => refused_at(alloc, error),
    }
}

/// Why a text is no component, and where, or `none`.
pub fn refusal(alloc: Global, text: &[u8]) -> Result<String, NoMemory>
    requires { length text.now < LONGEST }
{
    match read(alloc, text) {
        Ok(_) => Ok(String::from_str(alloc, "none")?),
        Err(error) => refused_at(alloc, error),
    }
}

/// How many nodes a component has at its top, or `refused`.
pub fn count(alloc: Global, text: &[u8]) -> Result<String, NoMemory>
    requires { length text.now < LONGEST }
{
    match read(alloc, text) {
        Ok(tree) => Ok(tree.nodes.len().to_string(alloc)?),
        Err(ParseError::Refused(_)) => Ok(String::from_str(alloc, "refused")?),
        Err(ParseError::NoMemory) => Err(NoMemory),
    }
}

/// The forms of the nodes at the top of a component.
pub fn tops(alloc: Global, text: &[u8]) -> Result<String, NoMemory>
    requires { length text.now < LONGEST }
{
    match read(alloc, text) {
        Ok(tree) => listed(alloc, &tree.nodes),
        Err(error) => refused_at(alloc, error),
    }
}

/// The lengths of the fronts of a text that are components.
pub fn fronts(alloc: Global, text: &[u8]) -> Result<String, NoMemory>
    requires { length text.now < LONGEST }
{
    let mut lengths = String::new(alloc);
    for len in 0..text.len() + 1 {
        if read(alloc, &text[..len]).is_ok() {
            push_part(&mut lengths, " ", len.to_string(alloc)?.as_str())?;
        }
    }
    Ok(lengths)
}

/// How many statements the module of the file 7 has, or why the text is none, and where.
pub fn module(alloc: Global, text: &[u8]) -> Result<String, NoMemory>
    requires { length text.now < LONGEST }
{
    let mut names = Names::empty(alloc);
    match parse_module(alloc, &mut names, 7, text) {
        Ok(module) => module_size(alloc, &module),
        Err(error) => refused_at(alloc, error),
    }
}

fn module_size(alloc: Global, module: &Module) -> Result<String, NoMemory> {
    let count = module.script.stmts.len();
    Ok(format!(in alloc; "file {}, statements: {count}", module.file)?)
}

/// Whether texts with ` | ` between are components, read in turn with one table of names, and how many names it has then.
pub fn sharing_names(alloc: Global, row: &str) -> Result<String, NoMemory> {
    let mut names = Names::empty(alloc);
    let mut told = String::new(alloc);
    for text in row.split(" | ") {
        let is_read = is_component(alloc, &mut names, text.as_bytes());
        push_part(
            &mut told,
            ", ",
            with_count(alloc, is_read, &names)?.as_str(),
        )?;
    }
    Ok(told)
}

fn is_component(alloc: Global, names: &mut Names, text: &[u8]) -> bool {
    text.len() < LONGEST && parse_component(alloc, names, 0, text).is_ok()
}

fn form(of: &Markup) -> &'static str {
    match of {
        Markup::Text { .. } => "Text",
        Markup::Show { .. } => "Show",
        Markup::Element { .. } => "Element",
        Markup::Comp { .. } => "Comp",
        Markup::Slot { .. } => "Slot",
        Markup::If { .. } => "If",
        Markup::Each { .. } => "Each",
        Markup::Key { .. } => "Key",
    }
}

/// The forms of nodes.
pub fn listed(alloc: Global, nodes: &Nodes) -> Result<String, NoMemory> {
    let mut list = String::new(alloc);
    push_all(&mut list, nodes)?;
    Ok(list)
}

// The forms of nodes, each with those of its parts.
fn forms(alloc: Global, nodes: &Nodes) -> Result<String, NoMemory> {
    let mut forms = String::new(alloc);
    for node in nodes.as_slice() {
        push_part(&mut forms, " ", form(node))?;
        push_parts(&mut forms, node)?;
    }
    Ok(forms)
}

fn push_all(forms: &mut String, nodes: &Nodes) -> Result<(), NoMemory> {
    for node in nodes.as_slice() {
        push_part(forms, " ", form(node))?;
    }
    Ok(())
}

fn push_parts(forms: &mut String, of: &Markup) -> Result<(), NoMemory> {
    match of {
        Markup::Element { children, .. } => push_all(forms, children),
        Markup::Comp { children, .. } => push_all(forms, children),
        Markup::Slot { children, .. } => push_all(forms, children),
        Markup::Key { body, .. } => push_all(forms, body),
        Markup::If { arms, last, .. } => {
            push_arms(forms, arms.as_slice())?;
            push_last(forms, last)
        }
        Markup::Each {
            index,
            key,
            body,
            none,
            ..
        } => {
            push_if(forms, index.is_some(), "index")?;
            push_if(forms, key.is_some(), "key")?;
            push_all(forms, body)?;
            push_last(forms, none)
        }
        _ => Ok(()),
    }
}

fn push_arms(forms: &mut String, arms: &[Branch]) -> Result<(), NoMemory> {
    for arm in arms {
        push_part(forms, " ", "arm")?;
        push_all(forms, &arm.body)?;
    }
    Ok(())
}

fn push_last(forms: &mut String, nodes: &Option<Nodes>) -> Result<(), NoMemory> {
    let Some(nodes) = nodes else {
        return Ok(());
    };
    push_part(forms, " ", "else")?;
    push_all(forms, nodes)
}

// Appends a word for what is there.
fn push_if(forms: &mut String, is_there: bool, word: &str) -> Result<(), NoMemory> {
    if !is_there {
        return Ok(());
    }
    push_part(forms, " ", word)
}
