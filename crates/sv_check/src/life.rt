// Functions of the life of a component that stand where they may not.
ghost use Rattle.std.specs.Prelude.{◌≡◌, IfOk, OnOk};
ghost use Rattle.sv_check.specs.Called.{with_places};
ghost use Rattle.sv_check.specs.Life as spec;

use crate::called::{Places, add_name, misplaced};
use crate::imported::imported_names;
use std::alloc::Global;
use sv_ast::{Decl, Expr, ExprKind, Stmt, StmtKind};
use sv_base::built_in::{LIFE_FUNCTIONS, LIFE_MODULE};
use sv_base::{Names, NoMemory, Span};
use sv_list::Items;
use sv_scopes::Scope;

/// The places of the names of such functions where they may not stand.
pub(crate) fn bad_life_places(
    alloc: Global,
    names: &Names,
    in_component: bool,
    stmts: &[Stmt],
    top: &Scope,
) -> Result<Items<Span>, NoMemory>
    ensures { IfOk result (λ places. places ≡ spec.bad_life_places names.now in_component stmts.now top.now) }
{
    let life = imported_names(alloc, names, LIFE_MODULE, &LIFE_FUNCTIONS, stmts)?;
    let free = free_places(alloc, in_component, stmts)?;
    misplaced(alloc, names, &life, &free, top.uses.as_slice())
}

// The places at which the names stand that are called as whole statements at the top level of a component, or as whole values there.
fn free_places(alloc: Global, in_component: bool, stmts: &[Stmt]) -> Result<Places, NoMemory>
    ensures { IfOk result (λ places. places ≡ spec.free_places in_component stmts.now) }
{
    let mut places = Places::new(alloc);
    if in_component {
        add_stmts(&mut places, stmts)?;
    }
    Ok(places)
}

fn add_stmts(places: &mut Places, stmts: &[Stmt]) -> Result<(), NoMemory>
    ensures { OnOk result (places.new ≡ with_places places.old (spec.called_at_top stmts.now)) }
{
    for stmt in stmts {
        add_stmt(places, stmt)?;
    }
    Ok(())
}

fn add_stmt(places: &mut Places, stmt: &Stmt) -> Result<(), NoMemory>
    ensures { OnOk result (places.new ≡ with_places places.old (spec.free_in stmt.now)) }
{
    match stmt.kind.get() {
        StmtKind::Eval(e) => add_called(places, e),
        StmtKind::Let(decls) | StmtKind::Export(decls) => add_decls(places, decls.as_slice()),
        StmtKind::Const { decls, .. } => add_decls(places, decls.as_slice()),
        _ => Ok(()),
    }
}

fn add_decls(places: &mut Places, decls: &[Decl]) -> Result<(), NoMemory>
    ensures { OnOk result (places.new ≡ with_places places.old (spec.called_in decls.now)) }
{
    for decl in decls {
        add_first(places, &decl.first)?;
    }
    Ok(())
}

fn add_first(places: &mut Places, first: &Option<Expr>) -> Result<(), NoMemory>
    ensures { OnOk result (places.new ≡ with_places places.old (spec.called_first first.now)) }
{
    match first {
        Some(e) => add_called(places, e),
        None => Ok(()),
    }
}

fn add_called(places: &mut Places, e: &Expr) -> Result<(), NoMemory>
    ensures { OnOk result (places.new ≡ with_places places.old (spec.called e.now)) }
{
    match e.kind.get() {
        ExprKind::Call { of, .. } => add_name(places, of),
        _ => Ok(()),
    }
}
