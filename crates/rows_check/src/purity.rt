// Which expressions are pure, and where others aren't.
use crate::read::expression;
use crate::unanswered::Unanswered;
use crate::words::ends;
use std::alloc::Global;
use sv_ast::{Expr, Ref, RefList};
use sv_base::{Names, Span};
use sv_names::Distinct;
use sv_purity::{Known, Scope, first_impurity, is_pure};
use sv_rows::yes_or_no;

/// Whether an expression is pure where this is the one name of a pure function.
pub fn is_pure_with(alloc: Global, function: &str, text: &str) -> Result<String, Unanswered> {
    let mut names = Names::empty(alloc);
    let functions = only(alloc, &mut names, function)?;
    let tree = expression(alloc, &mut names, text)?;
    let answer = yes_or_no(is_pure(&names, &tree, &functions, &RefList::new(alloc)));
    Ok(String::from_str(alloc, answer)?)
}

/// Whether an expression is pure where there are no pure functions, and `String` may be called.
pub fn is_pure_beside_string(alloc: Global, text: &str) -> Result<String, Unanswered> {
    let mut names = Names::empty(alloc);
    let conversions = only(alloc, &mut names, "String")?;
    let tree = expression(alloc, &mut names, text)?;
    let answer = yes_or_no(is_pure(&names, &tree, &RefList::new(alloc), &conversions));
    Ok(String::from_str(alloc, answer)?)
}

fn only(alloc: Global, names: &mut Names, text: &str) -> Result<RefList, Unanswered> {
    let mut list = RefList::new(alloc);
    list.push(Ref::Plain(names.intern(text)?))?;
    Ok(list)
}

/// The first place where an expression isn't pure, where `f` is the one name of a pure function.
pub fn first_place(alloc: Global, text: &str) -> Result<String, Unanswered> {
    let mut names = Names::empty(alloc);
    let known = knowing_f(alloc, &mut names)?;
    let tree = expression(alloc, &mut names, text)?;
    place(alloc, first_impurity(&names, &tree, &Scope::Top(&known)))
}

/// The same in a scope that declares `f` anew.
pub fn first_hidden(alloc: Global, text: &str) -> Result<String, Unanswered> {
    let mut names = Names::empty(alloc);
    let own = knowing_f(alloc, &mut names)?;
    let tree = expression(alloc, &mut names, text)?;
    place(alloc, first_inside(&names, &tree, &own))
}

// The first place in a scope that declares the names of all pure functions anew.
fn first_inside(names: &Names, tree: &Expr, known: &Known) -> Option<Span> {
    let around = Scope::Top(known);
    let inside = Scope::Hiding {
        outer: &around,
        names: &known.functions,
    };
    first_impurity(names, tree, &inside)
}

// The pure function `f` alone.
fn knowing_f(alloc: Global, names: &mut Names) -> Result<Known, Unanswered> {
    let mut functions = Distinct::new(alloc);
    functions.add(Ref::Plain(names.intern("f")?))?;
    Ok(Known {
        functions,
        conversions: Distinct::new(alloc),
    })
}

fn place(alloc: Global, found: Option<Span>) -> Result<String, Unanswered> {
    match found {
        Some(at) => Ok(ends(alloc, at)?),
        None => Ok(String::from_str(alloc, "none")?),
    }
}
