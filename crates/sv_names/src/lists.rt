// Lists of names by first appearance.
ghost use Rattle.std.specs.Prelude.{◌≡◌, [], map, filter, IfOk, OnOk};
ghost use Rattle.sv_names.specs.Distinct.{firsts};
ghost use Rattle.sv_names.specs.Uses as spec;

use crate::once::Distinct;
use crate::uses::{Use, Walk, find, find_arrow, find_block, find_stmt};
use std::alloc::Global;
use sv_ast::{Body, Expr, Named, RefList, Stmt};
use sv_base::NoMemory;
use sv_list::Items;

/// The names that stand free in an expression, by first appearance, each once. Those in its arrows are among them, but not
/// what an arrow or a block in it declares. A store `$x` is never hidden. `NoMemory` comes only where memory runs out.
pub fn free_names(alloc: Global, e: &Expr) -> Result<RefList, NoMemory>
    ensures { IfOk result (λ names. names ≡ spec.free_names e.now) }
{
    let mut walk = start(alloc);
    find(&mut walk, e)?;
    names_of(alloc, walk.uses.as_slice())
}

/// The names that stand free in an arrow with some parameters, by first appearance, each once. `NoMemory` comes only where memory runs out.
pub fn names_in_arrow(alloc: Global, params: &[Named], body: &Body) -> Result<RefList, NoMemory>
    ensures { IfOk result (λ names. names ≡ spec.free_in params.now (spec.body_parts body.now)) }
{
    let mut walk = start(alloc);
    find_arrow(&mut walk, params, body)?;
    names_of(alloc, walk.uses.as_slice())
}

/// The names that stand free in a function with some parameters, by first appearance, each once. `NoMemory` comes only where memory runs out.
pub fn names_in_block(alloc: Global, params: &[Named], stmts: &[Stmt]) -> Result<RefList, NoMemory>
    ensures { IfOk result (λ names. names ≡ spec.free_in params.now (spec.together (map spec.stmt_parts stmts.now))) }
{
    let mut walk = start(alloc);
    find_block(&mut walk, params, stmts)?;
    names_of(alloc, walk.uses.as_slice())
}

/// The names that a statement reads, by first appearance, each once, inside its arrows too: those that stand free in it and
/// are read. An assignment by another operator than `=`, `++` and `--` read their name (Svelte 4 docs, '$:').
pub fn read_names(alloc: Global, s: &Stmt) -> Result<RefList, NoMemory>
    ensures { IfOk result (λ names. names ≡ spec.read_names s.now) }
{
    let mut walk = start(alloc);
    find_stmt(&mut walk, s)?;
    names_read(alloc, walk.uses.as_slice())
}

/// The names that a statement assigns, by first appearance, each once, inside its arrows too: those that stand free in it
/// and are assigned. A declaration assigns nothing.
pub fn assigned_names(alloc: Global, s: &Stmt) -> Result<RefList, NoMemory>
    ensures { IfOk result (λ names. names ≡ spec.assigned_names s.now) }
{
    let mut walk = start(alloc);
    find_stmt(&mut walk, s)?;
    names_set(alloc, walk.uses.as_slice())
}

fn start(alloc: Global) -> Walk
    ensures scope { result.scope ≡ [] }
    ensures uses { result.uses ≡ [] }
{
    Walk {
        scope: Distinct::new(alloc),
        uses: Items::new(alloc),
    }
}

fn names_of(alloc: Global, uses: &[Use]) -> Result<RefList, NoMemory>
    ensures { IfOk result (λ names. names ≡ firsts (map (λ u. u.name) uses.now)) }
{
    let mut names = Distinct::new(alloc);
    for found in uses {
        names.add(found.name)?;
    }
    names.to_list(alloc)
}

fn names_read(alloc: Global, uses: &[Use]) -> Result<RefList, NoMemory>
    ensures { IfOk result (λ names. names ≡ firsts (map (λ u. u.name) (filter (λ u. u.is_read) uses.now))) }
{
    let mut names = Distinct::new(alloc);
    for found in uses {
        if found.is_read {
            names.add(found.name)?;
        }
    }
    names.to_list(alloc)
}

fn names_set(alloc: Global, uses: &[Use]) -> Result<RefList, NoMemory>
    ensures { IfOk result (λ names. names ≡ firsts (map (λ u. u.name) (filter (λ u. u.is_set) uses.now))) }
{
    let mut names = Distinct::new(alloc);
    for found in uses {
        if found.is_set {
            names.add(found.name)?;
        }
    }
    names.to_list(alloc)
}
