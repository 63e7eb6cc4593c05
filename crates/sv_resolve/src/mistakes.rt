// The mistakes of each kind in a scope.
ghost use Rattle.std.specs.Prelude.{◌≡◌, ◌&&◌, filter, fold, map, OnOk};
ghost use Rattle.std.specs.List.{flat_map};
ghost use Rattle.sv_names.specs.Distinct.{has};
ghost use Rattle.sv_resolve.specs.declared.refusals.CheckKind.TheVariants as kind;
ghost use Rattle.sv_resolve.specs.Earliest.{earlier};
ghost use Rattle.sv_resolve.specs.Mistakes as spec;
ghost use Rattle.sv_resolve.specs.Places as place;

use crate::earliest::offer;
use crate::places::name_place;
use crate::refusals::{CheckKind, CheckRefusal};
use crate::table::{Table, assigns, captured_names, table_of};
use std::alloc::Global;
use sv_ast::Ref;
use sv_base::built_in::{CONSOLE, CONVERSIONS, LOG, MATH, MATH_FUNCTIONS};
use sv_base::{Name, Names, NoMemory};
use sv_names::Distinct;
use sv_scopes::{Role, Scope, Use};

/// Looks for names that scopes declare twice, and for declarations of `Math`.
pub(crate) fn find_twice(
    alloc: Global,
    first: &mut Option<CheckRefusal>,
    names: &Names,
    scopes: &[Scope],
) -> Result<(), NoMemory>
    ensures { OnOk result (first.new ≡ fold earlier first.old (spec.refused kind.DeclaredTwice (flat_map (spec.declared_twice names.now) scopes.now))) }
{
    for scope in scopes {
        find_twice_in(alloc, first, names, scope)?;
    }
    Ok(())
}

/// Looks for names that a scope declares twice, and for declarations of `Math`.
pub(crate) fn find_twice_in(
    alloc: Global,
    first: &mut Option<CheckRefusal>,
    names: &Names,
    scope: &Scope,
) -> Result<(), NoMemory>
    ensures { OnOk result (first.new ≡ fold earlier first.old (spec.refused kind.DeclaredTwice (spec.declared_twice names.now scope.now))) }
{
    let mut known = Distinct::new(alloc);
    for declared in &scope.declares {
        let name = Ref::Plain(declared.name);
        if known.has(name) || names.is_text(declared.name, MATH) {
            offer(first, CheckKind::DeclaredTwice, declared.span);
        }
        known.add(name)?;
    }
    Ok(())
}

/// Looks for names that no scope declares, among what is left of the top level.
pub(crate) fn find_unknown(
    alloc: Global,
    first: &mut Option<CheckRefusal>,
    names: &Names,
    top: &Scope,
) -> Result<(), NoMemory>
    ensures { OnOk result (first.new ≡ fold earlier first.old (spec.refused kind.UnknownName (spec.unknown_names names.now top.now))) }
{
    let table = table_of(alloc, top.declares.as_slice())?;
    offer_unknown(first, names, &table, top.uses.as_slice());
    Ok(())
}

fn offer_unknown(first: &mut Option<CheckRefusal>, names: &Names, table: &Table, uses: &[Use])
    ensures { first.new ≡ fold earlier first.old (spec.refused kind.UnknownName (map (place.name_place names.now) (filter (spec.is_unknown names.now table.now.all table.now.components) uses.now))) }
{
    for found in uses {
        if is_unknown(names, table, found) {
            offer(first, CheckKind::UnknownName, name_place(names, found));
        }
    }
}

fn is_unknown(names: &Names, table: &Table, found: &Use) -> bool
    ensures { result ≡ spec.is_unknown names.now table.now.all table.now.components found.now }
{
    let is_component = table.components.has(found.name);
    if matches!(found.role, Role::Tag) {
        return !is_component;
    }
    if table.all.has(found.name) {
        return is_component;
    }
    is_unbound(names, found.role, found.name)
}

fn is_unbound(names: &Names, role: Role, name: Ref) -> bool
    ensures { result ≡ spec.is_unbound names.now role name }
{
    match name {
        Ref::Plain(name) => !calls_free(names, role, name),
        Ref::Store(_) => false,
    }
}

fn calls_free(names: &Names, role: Role, name: Name) -> bool
    ensures { result ≡ spec.calls_free names.now role name }
{
    match role {
        Role::Called => names.is_one_of(name, &CONVERSIONS),
        Role::CalledMember(word) => {
            (names.is_text(name, MATH) && names.is_one_of(word, &MATH_FUNCTIONS))
                || (names.is_text(name, CONSOLE) && names.is_text(word, LOG))
        }
        Role::Alone | Role::Tag => false,
    }
}

/// Looks for assignments to constants of scopes.
pub(crate) fn find_constants(
    alloc: Global,
    first: &mut Option<CheckRefusal>,
    scopes: &[Scope],
) -> Result<(), NoMemory>
    ensures { OnOk result (first.new ≡ fold earlier first.old (spec.refused kind.AssignConst (flat_map spec.constant_assigns scopes.now))) }
{
    for scope in scopes {
        find_constants_in(alloc, first, scope)?;
    }
    Ok(())
}

/// Looks for assignments to constants of a scope.
pub(crate) fn find_constants_in(
    alloc: Global,
    first: &mut Option<CheckRefusal>,
    scope: &Scope,
) -> Result<(), NoMemory>
    ensures { OnOk result (first.new ≡ fold earlier first.old (spec.refused kind.AssignConst (spec.constant_assigns scope.now))) }
{
    let table = table_of(alloc, scope.declares.as_slice())?;
    offer_constants(first, &table.constants, scope.uses.as_slice());
    Ok(())
}

fn offer_constants(first: &mut Option<CheckRefusal>, constants: &Distinct, uses: &[Use])
    ensures { first.new ≡ fold earlier first.old (spec.refused kind.AssignConst (map (λ u. u.span) (filter (λ u. spec.assigns u.form && has u.name constants.now) uses.now))) }
{
    for found in uses {
        if assigns(found.form) && constants.has(found.name) {
            offer(first, CheckKind::AssignConst, found.span);
        }
    }
}

/// Looks for assignments to names of scopes that arrows take along.
pub(crate) fn find_captured(
    alloc: Global,
    first: &mut Option<CheckRefusal>,
    scopes: &[Scope],
) -> Result<(), NoMemory>
    ensures { OnOk result (first.new ≡ fold earlier first.old (spec.refused kind.CapturedAssign (flat_map spec.captured_assigns scopes.now))) }
{
    for scope in scopes {
        find_captured_in(alloc, first, scope)?;
    }
    Ok(())
}

fn find_captured_in(
    alloc: Global,
    first: &mut Option<CheckRefusal>,
    scope: &Scope,
) -> Result<(), NoMemory>
    ensures { OnOk result (first.new ≡ fold earlier first.old (spec.refused kind.CapturedAssign (spec.captured_assigns scope.now))) }
{
    let table = table_of(alloc, scope.declares.as_slice())?;
    let captured = captured_names(alloc, scope.uses.as_slice())?;
    offer_captured(first, &table.all, &captured, scope.uses.as_slice());
    Ok(())
}

fn offer_captured(
    first: &mut Option<CheckRefusal>,
    own: &Distinct,
    captured: &Distinct,
    uses: &[Use],
)
    ensures { first.new ≡ fold earlier first.old (spec.refused kind.CapturedAssign (map (λ u. u.span) (filter (λ u. spec.assigns u.form && has u.name own.now && has u.name captured.now) uses.now))) }
{
    for found in uses {
        if assigns(found.form) && own.has(found.name) && captured.has(found.name) {
            offer(first, CheckKind::CapturedAssign, found.span);
        }
    }
}
