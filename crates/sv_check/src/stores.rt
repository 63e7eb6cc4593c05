// Store names that name no store.
ghost use Rattle.std.specs.Prelude.{◌≡◌, IfOk};
ghost use Rattle.sv_check.specs.Stores as spec;

use std::alloc::Global;
use sv_ast::Ref;
use sv_base::{Names, NoMemory, Span};
use sv_list::Items;
use sv_names::Distinct;
use sv_resolve::{is_store, name_place};
use sv_scopes::{Binding, Declared, Scope, Use};

/// The places of the store names that name no store.
pub(crate) fn bad_stores(
    alloc: Global,
    names: &Names,
    in_component: bool,
    top: &Scope,
) -> Result<Items<Span>, NoMemory>
    ensures { IfOk result (λ places. places ≡ spec.bad_stores names.now in_component top.now) }
{
    let known = holders(alloc, in_component, top.declares.as_slice())?;
    storeless(alloc, names, &known, top.uses.as_slice())
}

// The places of the store names whose stores are held by none of some names.
fn storeless(
    alloc: Global,
    names: &Names,
    known: &Distinct,
    uses: &[Use],
) -> Result<Items<Span>, NoMemory>
    ensures { IfOk result (λ places. places ≡ spec.storeless names.now known.now uses.now) }
{
    let mut places = Items::new(alloc);
    for found in uses {
        if is_bad_store(known, found) {
            places.push(name_place(names, found))?;
        }
    }
    Ok(places)
}

// The names that may hold a store; a module has none.
fn holders(alloc: Global, in_component: bool, declares: &[Declared]) -> Result<Distinct, NoMemory>
    ensures { IfOk result (λ known. known ≡ spec.holders in_component declares.now) }
{
    if in_component {
        return all_holders(alloc, declares);
    }
    Ok(Distinct::new(alloc))
}

fn all_holders(alloc: Global, declares: &[Declared]) -> Result<Distinct, NoMemory>
    ensures { IfOk result (λ known. known ≡ spec.all_holders declares.now) }
{
    let mut known = Distinct::new(alloc);
    for declared in declares {
        if may_hold(declared.by) {
            known.add(Ref::Plain(declared.name))?;
        }
    }
    Ok(known)
}

fn may_hold(by: Binding) -> bool
    ensures { result ≡ spec.may_hold by }
{
    matches!(
        by,
        Binding::Let | Binding::Export | Binding::Reactive | Binding::Const | Binding::Import
    )
}

fn is_bad_store(known: &Distinct, found: &Use) -> bool
    ensures { result ≡ spec.is_bad_store known.now found.now }
{
    is_store(found.name) && !known.has(holder(found.name))
}

fn holder(name: Ref) -> Ref
    ensures { result ≡ spec.holder name }
{
    match name {
        Ref::Plain(name) | Ref::Store(name) => Ref::Plain(name),
    }
}
