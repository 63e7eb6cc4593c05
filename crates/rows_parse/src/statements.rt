// Scripts and modules: the form of each statement, and of its parts.
ghost use Rattle.std.specs.Prelude.{◌<◌, length};

use crate::LONGEST;
use crate::refusals::{refused_at, with_count};
use std::alloc::{AllocError, Global};
use sv_ast::{Arm, ParseError, Script, Stmt, StmtKind};
use sv_base::{Names, NoMemory};
use sv_rows::push_part;
use sv_script::{parse_module_script, parse_script};

// The script that is the whole of a text.
fn read(alloc: Global, names: &mut Names, text: &[u8]) -> Result<Script, ParseError>
    requires { length text.now < LONGEST }
{
    parse_script(alloc, names, 0, text, 0, text.len() as u32)
}

/// The forms of a script's statements, each with those of its parts; or why the text is no script, and where.
pub fn script(alloc: Global, text: &[u8]) -> Result<String, NoMemory>
    requires { length text.now < LONGEST }
{
    let mut names = Names::empty(alloc);
    told(alloc, read(alloc, &mut names, text))
}

/// The same for a module.
pub fn module(alloc: Global, text: &[u8]) -> Result<String, NoMemory>
    requires { length text.now < LONGEST }
{
    let mut names = Names::empty(alloc);
    told(alloc, parse_module_script(alloc, &mut names, 0, text))
}

/// Why a text is no script, and where, or `none`.
pub fn refusal(alloc: Global, text: &[u8]) -> Result<String, NoMemory>
    requires { length text.now < LONGEST }
{
    let mut names = Names::empty(alloc);
    match read(alloc, &mut names, text) {
        Ok(_) => Ok(String::from_str(alloc, "none")?),
        Err(error) => refused_at(alloc, error),
    }
}

/// Where the last statement of a script begins and ends.
pub fn last_place(alloc: Global, text: &[u8]) -> Result<String, NoMemory>
    requires { length text.now < LONGEST }
{
    let mut names = Names::empty(alloc);
    match read(alloc, &mut names, text) {
        Ok(script) => last_of(alloc, script.stmts.as_slice()),
        Err(error) => refused_at(alloc, error),
    }
}

fn last_of(alloc: Global, stmts: &[Stmt]) -> Result<String, NoMemory> {
    match stmts.last() {
        Some(stmt) => Ok(format!(in alloc; "{}..{}", stmt.span.from, stmt.span.to)?),
        None => Ok(String::new(alloc)),
    }
}

/// Whether texts with ` | ` between are scripts, read in turn with one table of names, and how many names it has then.
pub fn sharing_names(alloc: Global, row: &str) -> Result<String, NoMemory> {
    let mut names = Names::empty(alloc);
    let mut told = String::new(alloc);
    for text in row.split(" | ") {
        let is_read = is_script(alloc, &mut names, text.as_bytes());
        push_part(
            &mut told,
            ", ",
            with_count(alloc, is_read, &names)?.as_str(),
        )?;
    }
    Ok(told)
}

fn is_script(alloc: Global, names: &mut Names, text: &[u8]) -> bool {
    text.len() < LONGEST && read(alloc, names, text).is_ok()
}

fn told(alloc: Global, read: Result<Script, ParseError>) -> Result<String, NoMemory> {
    match read {
        Ok(script) => forms(alloc, script.stmts.as_slice()),
        Err(error) => refused_at(alloc, error),
    }
}

// The forms of statements, each with those of its parts.
fn forms(alloc: Global, stmts: &[Stmt]) -> Result<String, NoMemory> {
    let mut forms = String::new(alloc);
    for stmt in stmts {
        push_form(&mut forms, stmt)?;
        push_parts(&mut forms, stmt)?;
    }
    Ok(forms)
}

/// The form of a statement.
pub fn form(of: &Stmt) -> &'static str {
    match of.kind.get() {
        StmtKind::Empty => "Empty",
        StmtKind::Block(_) => "Block",
        StmtKind::Let(_) => "Let",
        StmtKind::Const { exported, .. } => { if *exported { "Const given" } else { "Const" } }
        StmtKind::If { .. } => "If",
        StmtKind::While { .. } => "While",
        StmtKind::For { .. } => "For",
        StmtKind::Each { .. } => "Each",
        StmtKind::Break => "Break",
        StmtKind::Continue => "Continue",
        StmtKind::Return(_) => "Return",
        StmtKind::Eval(_) => "Eval",
        StmtKind::Import(_) => "Import",
        StmtKind::Export(_) => "Export",
        StmtKind::React(_) => "React",
        StmtKind::Func { exported, .. } => { if *exported { "Func given" } else { "Func" } }
    }
}

fn push_form(forms: &mut String, of: &Stmt) -> Result<(), NoMemory> {
    push_part(forms, " ", form(of))
}

/// Appends the forms of statements.
pub fn push_stmts(forms: &mut String, stmts: &[Stmt]) -> Result<(), NoMemory> {
    for stmt in stmts {
        push_form(forms, stmt)?;
    }
    Ok(())
}

fn push_arms(forms: &mut String, arms: &[Arm]) -> Result<(), NoMemory> {
    for arm in arms {
        push_form(forms, &arm.body)?;
    }
    Ok(())
}

fn push_last(forms: &mut String, last: &Option<Stmt>) -> Result<(), NoMemory> {
    match last {
        Some(stmt) => push_form(forms, stmt),
        None => Ok(()),
    }
}

fn push_parts(forms: &mut String, of: &Stmt) -> Result<(), NoMemory> {
    match of.kind.get() {
        StmtKind::Block(stmts) => push_stmts(forms, stmts.as_slice()),
        StmtKind::Func { body, .. } => push_stmts(forms, body.as_slice()),
        StmtKind::If { arms, last } => {
            push_arms(forms, arms.as_slice())?;
            push_last(forms, last)
        }
        StmtKind::While { body, .. } => push_form(forms, body),
        StmtKind::For { body, .. } => push_form(forms, body),
        StmtKind::Each { body, .. } => push_form(forms, body),
        StmtKind::React(inner) => push_form(forms, inner),
        StmtKind::Return(Some(_)) => push_part(forms, " ", "value"),
        _ => Ok(()),
    }
}
