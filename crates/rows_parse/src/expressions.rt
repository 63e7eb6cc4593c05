// Expressions: the form of each, and of its parts.
ghost use Rattle.std.specs.Prelude.{◌<◌, ◌≤◌, length};

use crate::LONGEST;
use crate::refusals::refused_at;
use crate::statements::push_stmts;
use std::alloc::{AllocError, Global};
use sv_ast::{Body, Entry, Expr, ExprKind, Field, Link, ParseError};
use sv_base::{Names, NoMemory};
use sv_rows::push_part;
use sv_script::{parse_expr, parse_expr_in};

/// The forms of the expression at the front and of its parts, and where it ends; or why there is none, and where.
pub fn expression(alloc: Global, text: &[u8]) -> Result<String, NoMemory>
    requires { length text.now < LONGEST }
{
    let mut names = Names::empty(alloc);
    match parse_expr(alloc, &mut names, 0, text, 0) {
        Ok((tree, end)) => forms_to(alloc, &tree, end),
        Err(error) => refused_at(alloc, error),
    }
}

/// Why there is no expression at the front, and where, or `none`.
pub fn refusal(alloc: Global, text: &[u8]) -> Result<String, NoMemory>
    requires { length text.now < LONGEST }
{
    let mut names = Names::empty(alloc);
    match parse_expr(alloc, &mut names, 0, text, 0) {
        Ok(_) => Ok(String::from_str(alloc, "none")?),
        Err(error) => refused_at(alloc, error),
    }
}

/// Where the expression ends that begins behind `|`.
pub fn end_behind(alloc: Global, row: &str) -> Result<String, NoMemory>
    requires { length row.now < LONGEST }
{
    let (front, behind) = row.split_once('|').unwrap_or(("", row));
    let mut text = String::from_str(alloc, front)?;
    text.push_str(behind)?;
    end_from(alloc, text.as_bytes(), front.len())
}

fn end_from(alloc: Global, text: &[u8], from: usize) -> Result<String, NoMemory>
    requires from { from ≤ length text.now }
    requires short { length text.now < LONGEST }
{
    let mut names = Names::empty(alloc);
    told_end(alloc, parse_expr(alloc, &mut names, 0, text, from as u32))
}

/// Where the expression at the front ends where so many constructs are open: their number, ` | `, and the text.
pub fn end_in(alloc: Global, row: &str) -> Result<String, NoMemory>
    requires { length row.now < LONGEST }
{
    let (count, text) = row.split_once(" | ").unwrap_or(("", row));
    let constructs = count.parse::<u32>().unwrap_or(0).min(32);
    let mut names = Names::empty(alloc);
    let read = parse_expr_in(alloc, &mut names, 0, text.as_bytes(), 0, constructs);
    told_end(alloc, read)
}

// Where what was read ends, or why there is nothing.
fn told_end(alloc: Global, read: Result<(Expr, u32), ParseError>) -> Result<String, NoMemory> {
    match read {
        Ok((_, end)) => Ok(format!(in alloc; "@{end}")?),
        Err(error) => refused_at(alloc, error),
    }
}

// The forms of an expression and of its parts, and where it ends.
fn forms_to(alloc: Global, of: &Expr, end: u32) -> Result<String, NoMemory> {
    let mut forms = String::new(alloc);
    push_form(&mut forms, of)?;
    push_parts(&mut forms, of)?;
    write!(forms, " @{end}")?;
    Ok(forms)
}

fn form(of: &Expr) -> &'static str {
    match of.kind.get() {
        ExprKind::Undefined => "Undefined",
        ExprKind::Null => "Null",
        ExprKind::Bool(_) => "Bool",
        ExprKind::Num(_) => "Num",
        ExprKind::Text(_) => "Text",
        ExprKind::Read(_) => "Read",
        ExprKind::List(_) => "List",
        ExprKind::Obj(_) => "Obj",
        ExprKind::Template(_) => "Template",
        ExprKind::Arrow { .. } => "Arrow",
        ExprKind::Assign { .. } => "Assign",
        ExprKind::Bump { .. } => "Bump",
        ExprKind::Chain { .. } => "Chain",
        ExprKind::Not(_) => "Not",
        ExprKind::Minus(_) => "Minus",
        ExprKind::Choose { .. } => "Choose",
        ExprKind::Member { .. } => "Member",
        ExprKind::Index { .. } => "Index",
        ExprKind::Call { .. } => "Call",
    }
}

fn push_form(forms: &mut String, of: &Expr) -> Result<(), NoMemory> {
    push_part(forms, " ", form(of))
}

fn push_parts(forms: &mut String, of: &Expr) -> Result<(), NoMemory> {
    match of.kind.get() {
        ExprKind::List(items) => push_entries(forms, items.as_slice()),
        ExprKind::Obj(fields) => push_fields(forms, fields.as_slice()),
        ExprKind::Template(parts) => push_all(forms, parts.as_slice()),
        ExprKind::Chain { first, rest } => {
            push_form(forms, first)?;
            push_links(forms, rest.as_slice())
        }
        ExprKind::Call { of, args } => {
            push_form(forms, of)?;
            push_all(forms, args.as_slice())
        }
        ExprKind::Choose { test, yes, no } => {
            push_form(forms, test)?;
            push_form(forms, yes)?;
            push_form(forms, no)
        }
        ExprKind::Index { of, at } => {
            push_form(forms, of)?;
            push_form(forms, at)
        }
        ExprKind::Not(of) | ExprKind::Minus(of) => push_form(forms, of),
        ExprKind::Member { of, .. } => push_form(forms, of),
        ExprKind::Assign { value, .. } => push_form(forms, value),
        ExprKind::Arrow { body, .. } => push_body(forms, body),
        _ => Ok(()),
    }
}

fn push_all(forms: &mut String, of: &[Expr]) -> Result<(), NoMemory> {
    for expr in of {
        push_form(forms, expr)?;
    }
    Ok(())
}

fn push_entries(forms: &mut String, items: &[Entry]) -> Result<(), NoMemory> {
    for item in items {
        let word = match item {
            Entry::One(value) => form(value),
            Entry::Spread(_) => "Spread",
        };
        push_part(forms, " ", word)?;
    }
    Ok(())
}

fn push_fields(forms: &mut String, fields: &[Field]) -> Result<(), NoMemory> {
    for field in fields {
        let word = match field {
            Field::Pair { value, .. } => form(value),
            Field::Spread(_) => "Spread",
        };
        push_part(forms, " ", word)?;
    }
    Ok(())
}

fn push_links(forms: &mut String, links: &[Link]) -> Result<(), NoMemory> {
    for link in links {
        push_form(forms, &link.right)?;
    }
    Ok(())
}

fn push_body(forms: &mut String, body: &Body) -> Result<(), NoMemory> {
    match body {
        Body::Value(value) => push_form(forms, value),
        Body::Block(stmts) => push_stmts(forms, stmts.as_slice()),
    }
}
