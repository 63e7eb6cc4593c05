// The first mistake in the names of small files, and the cells and constants of those that show none.
use crate::read::{alone, component, script};
use crate::unanswered::Unanswered;
use crate::words::{ends, push_ref};
use std::alloc::Global;
use sv_ast::{Component, Ref};
use sv_base::Names;
use sv_resolve::{CheckError, CheckRefusal, Scopes, first_mistake, resolve, resolve_module};
use sv_rows::yes_or_no;
use sv_scopes::scopes_of_component;

/// The first mistake in the scopes of a component that is a script alone.
pub fn of_script(alloc: Global, text: &str) -> Result<String, Unanswered> {
    let mut names = Names::empty(alloc);
    let tree = alone(alloc, 0, script(alloc, &mut names, text)?);
    in_scopes(alloc, &names, &tree)
}

fn in_scopes(alloc: Global, names: &Names, tree: &Component) -> Result<String, Unanswered> {
    let scopes = scopes_of_component(alloc, tree)?;
    match first_mistake(alloc, names, &scopes)? {
        Some(refusal) => told(alloc, &refusal),
        None => Ok(String::from_str(alloc, "none")?),
    }
}

/// The first mistake in the names of a component.
pub fn of_component(alloc: Global, text: &str) -> Result<String, Unanswered> {
    let mut names = Names::empty(alloc);
    let tree = component(alloc, &mut names, text)?;
    match resolve(alloc, &names, &tree) {
        Ok(_) => Ok(String::from_str(alloc, "none")?),
        Err(error) => refused(alloc, error),
    }
}

/// A refusal of a check in words.
pub fn refused(alloc: Global, error: CheckError) -> Result<String, Unanswered> {
    match error {
        CheckError::Refused(refusal) => told(alloc, &refusal),
        CheckError::NoMemory => Err(Unanswered::NoMemory),
    }
}

fn told(alloc: Global, refusal: &CheckRefusal) -> Result<String, Unanswered> {
    let place = ends(alloc, refusal.at)?;
    Ok(format!(in alloc; "{} {}", refusal.kind, place.as_str())?)
}

/// Whether a module shows no mistake.
pub fn is_clean_module(alloc: Global, text: &str) -> Result<String, Unanswered> {
    let mut names = Names::empty(alloc);
    let script = script(alloc, &mut names, text)?;
    let is_clean = resolve_module(alloc, &names, &script).is_ok();
    Ok(String::from_str(alloc, yes_or_no(is_clean))?)
}

/// The cells of a component, and its constants.
pub fn cells(alloc: Global, text: &str) -> Result<String, Unanswered> {
    let mut names = Names::empty(alloc);
    let tree = component(alloc, &mut names, text)?;
    match resolve(alloc, &names, &tree) {
        Ok(scopes) => cells_told(alloc, &names, &scopes),
        Err(error) => refused(alloc, error),
    }
}

fn cells_told(alloc: Global, names: &Names, scopes: &Scopes) -> Result<String, Unanswered> {
    let mut line = String::from_str(alloc, "cells")?;
    push_all(&mut line, names, scopes.cells.as_slice())?;
    line.push_str("; constants")?;
    push_all(&mut line, names, scopes.constants.as_slice())?;
    Ok(line)
}

fn push_all(line: &mut String, names: &Names, list: &[Ref]) -> Result<(), Unanswered> {
    for name in list {
        line.push_str(" ")?;
        push_ref(line, names, *name)?;
    }
    Ok(())
}
