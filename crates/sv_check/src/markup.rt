// The mistakes of a file's markup.
ghost use Rattle.std.specs.Prelude.{◌≡◌, ◌<◌, Some, length, fold, slice_get, IfOk, OnOk};
ghost use Rattle.sv_names.specs.Distinct.{firsts, with_names};
ghost use Rattle.sv_resolve.specs.declared.refusals.CheckKind.TheVariants as kind;
ghost use Rattle.sv_resolve.specs.Cells.{variables as variables_in};
ghost use Rattle.sv_resolve.specs.Earliest.{earlier};
ghost use Rattle.sv_resolve.specs.Mistakes.{refused};
ghost use Rattle.sv_scopes.specs.Parts.{names_of};
ghost use Rattle.sv_slots.specs.declared.sheets.Sheet.{Sheet as AnySheet};
ghost use Rattle.sv_check.specs.Mistakes as spec;

use crate::cells::variables;
use crate::first::offer_all;
use std::alloc::Global;
use sv_ast::{FileTree, Ref};
use sv_base::{Names, NoMemory, Span};
use sv_impure::{free_conversions, impure_markup};
use sv_list::Items;
use sv_names::Distinct;
use sv_purity::Known;
use sv_resolve::{CheckKind, CheckRefusal};
use sv_scopes::Declared;
use sv_slots::{Sheet, bad_binds, unknown_props, unknown_slots};

/// Offers the expressions of a file's markup that aren't pure. `pure` has the names of the file's pure functions, and its top level
/// declares `declares`.
pub(crate) fn offer_impure(
    alloc: Global,
    first: &mut Option<CheckRefusal>,
    names: &Names,
    pure: &[Ref],
    tree: &FileTree,
    declares: &[Declared],
) -> Result<(), NoMemory>
    ensures { OnOk result (first.new ≡ fold earlier first.old (refused kind.ImpureMarkup (spec.impure_in names.now (spec.known_in names.now pure.now (names_of declares.now)) tree.now))) }
{
    let known = known_in(alloc, names, pure, declares)?;
    let places = impure_in(alloc, names, &known, tree)?;
    offer_all(first, CheckKind::ImpureMarkup, places.as_slice());
    Ok(())
}

/// Offers the mistakes of the tags of the file with a number, whose top level declares `declares`.
pub(crate) fn offer_tags(
    alloc: Global,
    first: &mut Option<CheckRefusal>,
    all: &[Sheet],
    n: usize,
    declares: &[Declared],
) -> Result<(), NoMemory>
    requires { n < length all.now }
    ensures { OnOk result ((own : AnySheet) → slice_get all.now n ≡ Some own → first.new ≡ fold earlier first.old (spec.tag_mistakes (firsts (variables_in declares.now)) all.now own)) }
{
    let variables = variables(alloc, declares)?;
    offer_own_tags(alloc, first, &variables, all, &all[n])
}

// Offers the mistakes of the tags of a file with some variables.
fn offer_own_tags(
    alloc: Global,
    first: &mut Option<CheckRefusal>,
    variables: &Distinct,
    all: &[Sheet],
    own: &Sheet,
) -> Result<(), NoMemory>
    ensures { OnOk result (first.new ≡ fold earlier first.old (spec.tag_mistakes variables.now all.now own.now)) }
{
    let props = unknown_props(alloc, all, own)?;
    offer_all(first, CheckKind::UnknownProp, props.as_slice());
    let slots = unknown_slots(alloc, all, own)?;
    offer_all(first, CheckKind::UnknownSlot, slots.as_slice());
    let binds = bad_binds(alloc, variables, all, own)?;
    offer_all(first, CheckKind::BadBind, binds.as_slice());
    Ok(())
}

fn impure_in(
    alloc: Global,
    names: &Names,
    known: &Known,
    tree: &FileTree,
) -> Result<Items<Span>, NoMemory>
    ensures { IfOk result (λ places. places ≡ spec.impure_in names.now known.now tree.now) }
{
    match tree {
        FileTree::Component(c) => impure_markup(alloc, names, known, c),
        FileTree::Module(_) => Ok(Items::new(alloc)),
    }
}

// What is known at the top of a file's markup.
fn known_in(
    alloc: Global,
    names: &Names,
    pure: &[Ref],
    declares: &[Declared],
) -> Result<Known, NoMemory>
    ensures { IfOk result (λ known. known ≡ spec.known_in names.now pure.now (names_of declares.now)) }
{
    let mut functions = Distinct::new(alloc);
    add_all(&mut functions, pure)?;
    let declared = declared_names(alloc, declares)?;
    let conversions = free_conversions(alloc, names, &declared)?;
    Ok(Known {
        functions,
        conversions,
    })
}

/// Puts each of some names behind others, if it isn't there.
pub(crate) fn add_all(names: &mut Distinct, more: &[Ref]) -> Result<(), NoMemory>
    ensures { OnOk result (names.new ≡ with_names names.old more.now) }
{
    for name in more {
        names.add(*name)?;
    }
    Ok(())
}

fn declared_names(alloc: Global, declares: &[Declared]) -> Result<Distinct, NoMemory>
    ensures { IfOk result (λ names. names ≡ firsts (names_of declares.now)) }
{
    let mut names = Distinct::new(alloc);
    for declared in declares {
        names.add(Ref::Plain(declared.name))?;
    }
    Ok(names)
}
