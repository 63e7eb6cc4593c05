// `derived` where it may not stand.
ghost use Rattle.std.specs.Prelude.{◌≡◌, [], IfOk, OnOk, if◌then◌else◌};
ghost use Rattle.std.specs.List.{flat_map};
ghost use Rattle.sv_names.specs.Distinct.{firsts, with_names};
ghost use Rattle.sv_check.specs.Called.{name_of_call, with_places};
ghost use Rattle.sv_check.specs.Derived as spec;

use crate::called::{Places, add_name, misplaced};
use crate::imported::imported_names;
use std::alloc::Global;
use sv_ast::{Decl, Expr, ExprKind, Ref, Stmt, StmtKind};
use sv_base::built_in::STORE_MODULE;
use sv_base::{Names, NoMemory, Span};
use sv_effects::Purity;
use sv_imports::DERIVED_FUNCTIONS;
use sv_list::Items;
use sv_names::Distinct;
use sv_scopes::Scope;

/// What may compute a derived store in a file: what is pure there, and the names of the functions of one parameter that its top level declares.
#[derive(Drop)]
pub(crate) struct Derivers {
    purity: Purity,
    functions: Distinct,
}

/// The places of `derived` where it isn't called with two arguments, of which the second is a pure function of one parameter, as the whole
/// value of a constant at the top of a file. `pure` has the names of pure functions there.
pub(crate) fn bad_derived(
    alloc: Global,
    names: &Names,
    pure: &[Ref],
    stmts: &[Stmt],
    top: &Scope,
) -> Result<Items<Span>, NoMemory>
    ensures { IfOk result (λ places. places ≡ spec.bad_derived names.now pure.now stmts.now top.now) }
{
    let sought = imported_names(alloc, names, STORE_MODULE, &DERIVED_FUNCTIONS, stmts)?;
    let free = free_places(alloc, names, pure, stmts)?;
    misplaced(alloc, names, &sought, &free, top.uses.as_slice())
}

// The places at which `derived` may stand.
fn free_places(
    alloc: Global,
    names: &Names,
    pure: &[Ref],
    stmts: &[Stmt],
) -> Result<Places, NoMemory>
    ensures { IfOk result (λ places. places ≡ spec.derivation_places names.now (spec.derivers_of stmts.now pure.now) stmts.now) }
{
    let derivers = derivers_of(alloc, stmts, pure)?;
    derivation_places(alloc, names, &derivers, stmts)
}

fn derivers_of(alloc: Global, stmts: &[Stmt], pure: &[Ref]) -> Result<Derivers, NoMemory>
    ensures { IfOk result (λ derivers. derivers ≡ spec.derivers_of stmts.now pure.now) }
{
    Ok(Derivers {
        purity: Purity::new(alloc, stmts, pure)?,
        functions: functions(alloc, stmts)?,
    })
}

// The names of the functions of one parameter.
fn functions(alloc: Global, stmts: &[Stmt]) -> Result<Distinct, NoMemory>
    ensures { IfOk result (λ names. names ≡ firsts (flat_map spec.unary stmts.now)) }
{
    let mut names = Distinct::new(alloc);
    for stmt in stmts {
        add_function(&mut names, stmt)?;
    }
    Ok(names)
}

fn add_function(names: &mut Distinct, stmt: &Stmt) -> Result<(), NoMemory>
    ensures { OnOk result (names.new ≡ with_names names.old (spec.unary stmt.now)) }
{
    match stmt.kind.get() {
        StmtKind::Func { name, params, .. } => {
            if params.as_slice().len() == 1 {
                return names.add(Ref::Plain(name.name));
            }
            Ok(())
        }
        _ => Ok(()),
    }
}

// The places at which the names stand that are called with such arguments as whole values of constants.
fn derivation_places(
    alloc: Global,
    names: &Names,
    derivers: &Derivers,
    stmts: &[Stmt],
) -> Result<Places, NoMemory>
    ensures { IfOk result (λ places. places ≡ spec.derivation_places names.now derivers.now stmts.now) }
{
    let mut places = Places::new(alloc);
    for stmt in stmts {
        add_stmt(alloc, &mut places, names, derivers, stmt)?;
    }
    Ok(places)
}

fn add_stmt(
    alloc: Global,
    places: &mut Places,
    names: &Names,
    derivers: &Derivers,
    stmt: &Stmt,
) -> Result<(), NoMemory>
    ensures { OnOk result (places.new ≡ with_places places.old (spec.derivations_at names.now derivers.now stmt.now)) }
{
    match stmt.kind.get() {
        StmtKind::Const { decls, .. } => {
            add_decls(alloc, places, names, derivers, decls.as_slice())
        }
        _ => Ok(()),
    }
}

fn add_decls(
    alloc: Global,
    places: &mut Places,
    names: &Names,
    derivers: &Derivers,
    decls: &[Decl],
) -> Result<(), NoMemory>
    ensures { OnOk result (places.new ≡ with_places places.old (spec.derivations_in names.now derivers.now decls.now)) }
{
    for decl in decls {
        add_first(alloc, places, names, derivers, &decl.first)?;
    }
    Ok(())
}

fn add_first(
    alloc: Global,
    places: &mut Places,
    names: &Names,
    derivers: &Derivers,
    first: &Option<Expr>,
) -> Result<(), NoMemory>
    ensures { OnOk result (places.new ≡ with_places places.old (spec.derivation_first names.now derivers.now first.now)) }
{
    match first {
        Some(e) => add_called(alloc, places, names, derivers, e),
        None => Ok(()),
    }
}

fn add_called(
    alloc: Global,
    places: &mut Places,
    names: &Names,
    derivers: &Derivers,
    e: &Expr,
) -> Result<(), NoMemory>
    ensures { OnOk result (places.new ≡ with_places places.old (spec.derivation names.now derivers.now e.now)) }
{
    match e.kind.get() {
        ExprKind::Call { of, args } => {
            let is_wanted = derives(alloc, names, derivers, args.as_slice())?;
            add_name_if(places, is_wanted, of)
        }
        _ => Ok(()),
    }
}

fn add_name_if(places: &mut Places, is_wanted: bool, of: &Expr) -> Result<(), NoMemory>
    ensures { OnOk result (places.new ≡ with_places places.old (if is_wanted then name_of_call of.now else [])) }
{
    if is_wanted {
        return add_name(places, of);
    }
    Ok(())
}

// Whether some arguments are two, of which the second may compute a derived store.
fn derives(
    alloc: Global,
    names: &Names,
    derivers: &Derivers,
    args: &[Expr],
) -> Result<bool, NoMemory>
    ensures { IfOk result (λ derives. derives ≡ spec.derives names.now derivers.now args.now) }
{
    if args.len() != 2 {
        return Ok(false);
    }
    match args.get(1) {
        Some(second) => computes(alloc, names, derivers, second),
        None => Ok(false),
    }
}

// Whether an expression may compute a derived store.
fn computes(alloc: Global, names: &Names, derivers: &Derivers, e: &Expr) -> Result<bool, NoMemory>
    ensures { IfOk result (λ computes. computes ≡ spec.computes names.now derivers.now e.now) }
{
    match e.kind.get() {
        ExprKind::Read(name) => {
            Ok(derivers.functions.has(*name) && derivers.purity.is_pure_name(*name))
        }
        ExprKind::Arrow { params, .. } => {
            if params.as_slice().len() != 1 {
                return Ok(false);
            }
            derivers.purity.is_pure_arrow(alloc, names, e)
        }
        _ => Ok(false),
    }
}
