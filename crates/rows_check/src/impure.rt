// Where expressions of small components aren't pure.
use crate::read::component;
use crate::unanswered::Unanswered;
use crate::words::ends;
use std::alloc::Global;
use sv_ast::{Component, Ref};
use sv_base::Names;
use sv_impure::{free_conversions, impure_markup};
use sv_names::Distinct;
use sv_purity::Known;
use sv_rows::push_part;

/// Where a component isn't pure, where `f` is the name of a pure function.
pub fn beside_f(alloc: Global, text: &str) -> Result<String, Unanswered> {
    let mut names = Names::empty(alloc);
    let tree = component(alloc, &mut names, text)?;
    with_f(alloc, &names, &tree)
}

fn with_f(alloc: Global, names: &Names, tree: &Component) -> Result<String, Unanswered> {
    let known = Known {
        functions: alone(alloc, names, "f")?,
        conversions: Distinct::new(alloc),
    };
    told(alloc, names, &known, tree)
}

/// Where a component isn't pure beside what is built in: the component, ` | `, and the name that its file declares.
pub fn beside_built_in(alloc: Global, row: &str) -> Result<String, Unanswered> {
    let (text, declared) = row.split_once(" | ").unwrap_or((row, ""));
    let mut names = Names::empty(alloc);
    let tree = component(alloc, &mut names, text)?;
    with_built_in(alloc, &names, &tree, declared)
}

fn with_built_in(
    alloc: Global,
    names: &Names,
    tree: &Component,
    declared: &str,
) -> Result<String, Unanswered> {
    let declared = alone(alloc, names, declared)?;
    let known = Known {
        functions: Distinct::new(alloc),
        conversions: free_conversions(alloc, names, &declared)?,
    };
    told(alloc, names, &known, tree)
}

// A name alone, or none where the component doesn't have it.
fn alone(alloc: Global, names: &Names, text: &str) -> Result<Distinct, Unanswered> {
    let mut list = Distinct::new(alloc);
    if let Some(name) = names.find(text) {
        list.add(Ref::Plain(name))?;
    }
    Ok(list)
}

fn told(
    alloc: Global,
    names: &Names,
    known: &Known,
    tree: &Component,
) -> Result<String, Unanswered> {
    let mut line = String::new(alloc);
    for at in impure_markup(alloc, names, known, tree)?.as_slice() {
        push_part(&mut line, " ", ends(alloc, *at)?.as_str())?;
    }
    Ok(line)
}
