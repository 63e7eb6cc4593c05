// What names and the content of components look at.
ghost use Rattle.std.specs.Prelude.{◌≤◌, length};

use crate::mistakes::refused;
use crate::read::component;
use crate::unanswered::Unanswered;
use crate::words::{ref_of, text_of};
use std::alloc::{AllocError, Global};
use sv_ast::{Component, Ref, RefList};
use sv_base::{Names, NoMemory};
use sv_code::{Frag, Functions, Handlers, Known, Reading, Tag, Tags};
use sv_deps::reading;
use sv_fragments::{Around, Tables, fragments_of};
use sv_lower::TopNames;
use sv_names::{Distinct, LocalScope};
use sv_resolve::resolve;
use sv_slots::children_of;

/// What names look at: the cells by number, ` | `, the names of a row, ` | `, and the names.
pub fn of_names(alloc: Global, row: &str) -> Result<String, Unanswered> {
    let (cells, rest) = row.split_once(" | ").unwrap_or((row, ""));
    let (locals, looking) = rest.split_once(" | ").unwrap_or((rest, ""));
    let mut names = Names::empty(alloc);
    let cells = refs(alloc, &mut names, cells)?;
    let locals = refs(alloc, &mut names, locals)?;
    let looking = refs(alloc, &mut names, looking)?;
    beside(
        alloc,
        &names,
        cells.as_slice(),
        locals.as_slice(),
        looking.as_slice(),
    )
}

fn refs(alloc: Global, names: &mut Names, words: &str) -> Result<RefList, Unanswered> {
    let mut refs = RefList::new(alloc);
    for word in words.split_whitespace() {
        refs.push(ref_of(names, word)?)?;
    }
    Ok(refs)
}

fn beside(
    alloc: Global,
    names: &Names,
    cells: &[Ref],
    locals: &[Ref],
    looking: &[Ref],
) -> Result<String, Unanswered> {
    if cells.len() > 256 {
        return Err(Unanswered::TooLong);
    }
    let mut own = Distinct::new(alloc);
    for name in locals {
        own.add(*name)?;
    }
    let scope = LocalScope::inside(&LocalScope::Outside, &own);
    let tops = cells_alone(alloc, names, cells)?;
    told(
        alloc,
        names,
        &reading(alloc, &tops, cells, &scope, looking)?,
    )
}

// The top of a file that has cells alone.
fn cells_alone<'a>(alloc: Global, names: &'a Names, cells: &[Ref]) -> Result<TopNames<'a>, NoMemory>
    requires { length cells.now ≤ 256 }
{
    let mut tops = TopNames::new(alloc, names)?;
    for (n, cell) in cells.iter().enumerate() {
        tops.add(*cell, Known::Cell(n as u8))?;
    }
    Ok(tops)
}

/// What the content of a component's tag looks at, with which a component or its rows begin.
pub fn of_content(alloc: Global, text: &str) -> Result<String, Unanswered> {
    let mut names = Names::empty(alloc);
    let tree = component(alloc, &mut names, text)?;
    match resolve(alloc, &names, &tree) {
        Ok(scopes) => in_cells(alloc, &names, &tree, scopes.cells.as_slice()),
        Err(error) => refused(alloc, error),
    }
}

fn in_cells(
    alloc: Global,
    names: &Names,
    tree: &Component,
    cells: &[Ref],
) -> Result<String, Unanswered> {
    if cells.len() > 256 {
        return Err(Unanswered::TooLong);
    }
    let children = children_of(alloc, &[], tree.script.stmts.as_slice())?;
    let tops = cells_alone(alloc, names, cells)?;
    let around = Around {
        alloc,
        tops: &tops,
        cells,
        children: &children,
    };
    let mut tables = Tables {
        functions: Functions::new(alloc),
        tags: Tags::new(alloc),
        handlers: Handlers::new(alloc),
    };
    let frags = fragments_of(&mut tables, &around, tree.nodes.as_slice())?;
    content_told(alloc, names, tables.tags.as_slice(), frags.as_slice())
}

fn content_told(
    alloc: Global,
    names: &Names,
    tags: &[Tag],
    frags: &[Frag],
) -> Result<String, Unanswered> {
    match content_of(tags, frags) {
        Some(reads) => told(alloc, names, reads),
        None => Ok(String::from_str(alloc, "no tag")?),
    }
}

// What the content of the first tag looks at, or of the one that the first rows begin with.
fn content_of<'a>(tags: &'a [Tag], frags: &[Frag]) -> Option<&'a Reading> {
    match frags.first()? {
        Frag::Tag { tag, .. } => Some(&tags.get(*tag as usize)?.reads),
        Frag::Each { body, .. } => content_of(tags, body.as_slice()),
        _ => None,
    }
}

// The cells by number, and the locals.
fn told(alloc: Global, names: &Names, reads: &Reading) -> Result<String, Unanswered> {
    let mut line = String::new(alloc);
    push_cells(&mut line, reads.cells.as_slice())?;
    line.push_str("; locals")?;
    for name in reads.locals.as_slice() {
        write!(line, " {}", text_of(names, *name))?;
    }
    Ok(line)
}

fn push_cells(line: &mut String, cells: &[u8]) -> Result<(), AllocError> {
    line.push_str("cells")?;
    for cell in cells {
        write!(line, " {cell}")?;
    }
    Ok(())
}
