// What stands free, is read and is assigned.
use crate::read::{expression, script};
use crate::unanswered::Unanswered;
use crate::words::{listed, ref_of};
use std::alloc::Global;
use sv_ast::{Script, Stmt};
use sv_base::Names;
use sv_names::{Distinct, assigned_names, free_names, read_names};
use sv_rows::{push_part, yes_or_no};

/// The names that stand free in an expression.
pub fn free(alloc: Global, text: &str) -> Result<String, Unanswered> {
    let mut names = Names::empty(alloc);
    let tree = expression(alloc, &mut names, text)?;
    let found = free_names(alloc, &tree)?;
    listed(alloc, &names, found.as_slice())
}

/// The names that the one statement of a script reads.
pub fn read(alloc: Global, text: &str) -> Result<String, Unanswered> {
    let mut names = Names::empty(alloc);
    let script = script(alloc, &mut names, text)?;
    let found = read_names(alloc, only(&script)?)?;
    listed(alloc, &names, found.as_slice())
}

/// The names that the one statement of a script assigns.
pub fn assigned(alloc: Global, text: &str) -> Result<String, Unanswered> {
    let mut names = Names::empty(alloc);
    let script = script(alloc, &mut names, text)?;
    let found = assigned_names(alloc, only(&script)?)?;
    listed(alloc, &names, found.as_slice())
}

fn only(script: &Script) -> Result<&Stmt, Unanswered> {
    match script.stmts.as_slice() {
        [stmt] => Ok(stmt),
        _ => Err(Unanswered::Statements),
    }
}

/// Whether names are in a set: the names that are put in, ` | `, and those that are looked for.
pub fn set(alloc: Global, row: &str) -> Result<String, Unanswered> {
    let (put, sought) = row.split_once(" | ").unwrap_or((row, ""));
    let mut names = Names::empty(alloc);
    let mut known = Distinct::new(alloc);
    for word in put.split(' ') {
        known.add(ref_of(&mut names, word)?)?;
    }
    let mut told = String::new(alloc);
    for word in sought.split(' ') {
        let is_known = known.has(ref_of(&mut names, word)?);
        push_part(&mut told, " ", yes_or_no(is_known))?;
    }
    Ok(told)
}
