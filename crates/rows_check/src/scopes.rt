// The scopes of small files, and what each declares and uses.
use crate::read::{component, script};
use crate::unanswered::Unanswered;
use crate::words::{push_ref, text_of};
use std::alloc::Global;
use sv_ast::{Markup, Ref};
use sv_base::Names;
use sv_names::Distinct;
use sv_rows::{push_part, yes_or_no};
use sv_scopes::{
    FileScopes, Form, Role, Scope, Use, let_names, row_names, scopes_of_component, scopes_of_module,
};

/// The scopes of a script.
pub fn of_script(alloc: Global, text: &str) -> Result<String, Unanswered> {
    let mut names = Names::empty(alloc);
    let script = script(alloc, &mut names, text)?;
    shown(alloc, &names, &scopes_of_module(alloc, &script)?)
}

/// The scopes of a component.
pub fn of_component(alloc: Global, text: &str) -> Result<String, Unanswered> {
    let mut names = Names::empty(alloc);
    let tree = component(alloc, &mut names, text)?;
    shown(alloc, &names, &scopes_of_component(alloc, &tree)?)
}

// The scopes with ` | ` between, the top level last.
fn shown(alloc: Global, names: &Names, file: &FileScopes) -> Result<String, Unanswered> {
    let mut line = String::new(alloc);
    for scope in file.inside.as_slice() {
        line.push_str(scope_shown(alloc, names, scope)?.as_str())?;
        line.push_str(" | ")?;
    }
    line.push_str(scope_shown(alloc, names, &file.top)?.as_str())?;
    Ok(line)
}

// A scope as the names that it declares, `:`, and what is used in it.
fn scope_shown(alloc: Global, names: &Names, scope: &Scope) -> Result<String, Unanswered> {
    let mut line = String::new(alloc);
    for declared in scope.declares.as_slice() {
        push_part(&mut line, " ", text_of(names, declared.name))?;
    }
    push_part(&mut line, " ", ":")?;
    for found in scope.uses.as_slice() {
        push_use(&mut line, names, found)?;
    }
    Ok(line)
}

// Appends a use: the name, with `=` where it is assigned, `^` where an arrow stands round it, and `()`, `.()` or `<>` for its role.
fn push_use(line: &mut String, names: &Names, found: &Use) -> Result<(), Unanswered> {
    line.push_str(" ")?;
    push_ref(line, names, found.name)?;
    line.push_str(if found.form == Form::Read { "" } else { "=" })?;
    line.push_str(if found.in_arrow { "^" } else { "" })?;
    line.push_str(match found.role {
        Role::Alone => "",
        Role::Called => "()",
        Role::CalledMember(_) => ".()",
        Role::Tag => "<>",
    })?;
    Ok(())
}

/// What declares the names at the top of a script.
pub fn declared(alloc: Global, text: &str) -> Result<String, Unanswered> {
    let mut names = Names::empty(alloc);
    let script = script(alloc, &mut names, text)?;
    declared_in(alloc, &names, &scopes_of_module(alloc, &script)?.top)
}

fn declared_in(alloc: Global, names: &Names, scope: &Scope) -> Result<String, Unanswered> {
    let mut line = String::new(alloc);
    for declared in scope.declares.as_slice() {
        push_part(&mut line, ", ", text_of(names, declared.name))?;
        write!(line, " by {:?}", declared.by)?;
    }
    Ok(line)
}

/// Where the names begin that are used at the top of a component.
pub fn places(alloc: Global, text: &str) -> Result<String, Unanswered> {
    let mut names = Names::empty(alloc);
    let tree = component(alloc, &mut names, text)?;
    places_in(alloc, &scopes_of_component(alloc, &tree)?.top)
}

fn places_in(alloc: Global, scope: &Scope) -> Result<String, Unanswered> {
    let mut line = String::new(alloc);
    for Use { span, .. } in scope.uses.as_slice() {
        push_part(&mut line, " ", span.from.to_string(alloc)?.as_str())?;
    }
    Ok(line)
}

/// How many names the first node of a component declares, and whether `a` and `b` are among them: a tag by `let:`, or a row.
pub fn local_names(alloc: Global, text: &str) -> Result<String, Unanswered> {
    let mut names = Names::empty(alloc);
    let tree = component(alloc, &mut names, text)?;
    local_names_of(alloc, &names, tree.nodes.as_slice().first())
}

fn local_names_of(
    alloc: Global,
    names: &Names,
    node: Option<&Markup>,
) -> Result<String, Unanswered> {
    let told = declared_by(alloc, node)?;
    let (a, b) = (has(&told, names, "a"), has(&told, names, "b"));
    Ok(format!(in alloc; "{}, a {}, b {}", told.len(), yes_or_no(a), yes_or_no(b))?)
}

fn declared_by(alloc: Global, node: Option<&Markup>) -> Result<Distinct, Unanswered> {
    match node {
        Some(Markup::Comp { attrs, .. }) => Ok(let_names(alloc, attrs.as_slice())?),
        Some(Markup::Each { item, index, .. }) => Ok(row_names(alloc, item, index)?),
        _ => Ok(Distinct::new(alloc)),
    }
}

fn has(told: &Distinct, names: &Names, text: &str) -> bool {
    match names.find(text) {
        Some(name) => told.has(Ref::Plain(name)),
        None => false,
    }
}
