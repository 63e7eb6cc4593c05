// The cells of a component by what they are.
ghost use Rattle.std.specs.Prelude.{◌≡◌, ◌≤◌, ◌++◌, IfOk, OnOk, length};
ghost use Rattle.std.specs.List.{filter_map};
ghost use Rattle.sv_compile.specs.TopLevel as spec;
ghost use Rattle.sv_lower.specs.Tops.{known_in};
ghost use Rattle.sv_imports.specs.Given.{decl_names};
ghost use Rattle.sv_names.specs.Distinct.{firsts, with_names};

use crate::constants::Given;
use std::alloc::Global;
use sv_ast::{Decl, Ref, RefList, Stmt, StmtKind};
use sv_base::{Name, NoMemory};
use sv_code::{CellList, Known, Prop, Props, StoreCell, StoreCells};
use sv_deps::numbers;
use sv_lower::TopNames;
use sv_names::{Distinct, name_of};

/// The cell that a name stands for.
pub(crate) fn cell_of(tops: &TopNames<'_>, name: Ref) -> Option<u8>
    ensures { result ≡ spec.cell_of (known_in tops.now.known name) }
{
    match tops.get(name) {
        Some(Known::Cell(cell)) => Some(cell),
        _ => None,
    }
}

/// The props among some names.
pub(crate) fn props_of(alloc: Global, tops: &TopNames<'_>, names: &[Ref]) -> Result<Props, NoMemory>
    ensures { IfOk result (λ props. props ≡ filter_map (spec.prop_of tops.now) names.now) }
{
    let mut props = Props::new(alloc);
    for name in names {
        if let Some(cell) = cell_of(tops, *name) {
            props.push(Prop {
                name: name_of(*name),
                cell,
            })?;
        }
    }
    Ok(props)
}

/// The cells that reactive statements alone declare.
pub(crate) fn reactive_cells(
    alloc: Global,
    cells: &[Ref],
    stmts: &[Stmt],
) -> Result<CellList, NoMemory>
    requires { length cells.now ≤ 256 }
    ensures { IfOk result (λ list. list ≡ spec.reactive_cells cells.now stmts.now) }
{
    let lets = all_lets(alloc, stmts)?;
    let mut own = RefList::new(alloc);
    for cell in cells {
        if is_plain(*cell) && !lets.has(*cell) {
            own.push(*cell)?;
        }
    }
    numbers(alloc, cells, own.as_slice())
}

fn is_plain(name: Ref) -> bool
    ensures { result ≡ spec.is_plain name }
{
    matches!(name, Ref::Plain(_))
}

fn all_lets(alloc: Global, stmts: &[Stmt]) -> Result<Distinct, NoMemory>
    ensures { IfOk result (λ names. names ≡ firsts (spec.all_lets stmts.now)) }
{
    let mut names = Distinct::new(alloc);
    for stmt in stmts {
        add_lets(&mut names, stmt)?;
    }
    Ok(names)
}

fn add_lets(names: &mut Distinct, stmt: &Stmt) -> Result<(), NoMemory>
    ensures { OnOk result (names.new ≡ with_names names.old (spec.lets_of stmt.now)) }
{
    match stmt.kind.get() {
        StmtKind::Let(decls) => add_decls(names, decls.as_slice()),
        StmtKind::Export(decls) => add_decls(names, decls.as_slice()),
        _ => Ok(()),
    }
}

fn add_decls(names: &mut Distinct, decls: &[Decl]) -> Result<(), NoMemory>
    ensures { OnOk result (names.new ≡ with_names names.old (decl_names decls.now)) }
{
    for decl in decls {
        names.add(Ref::Plain(decl.name.name))?;
    }
    Ok(())
}

/// The store cells of a component, of which these may hold stores.
pub(crate) fn stores_of(
    alloc: Global,
    given: &[Given],
    cells: &[Ref],
) -> Result<StoreCells, NoMemory>
    requires { length cells.now ≤ 256 }
    ensures { IfOk result (λ stores. stores ≡ spec.stores_from given.now 0 cells.now) }
{
    let mut stores = StoreCells::new(alloc);
    for (n, cell) in cells.iter().enumerate() {
        add_store(&mut stores, given, n as u8, *cell)?;
    }
    Ok(stores)
}

fn add_store(stores: &mut StoreCells, given: &[Given], cell: u8, name: Ref) -> Result<(), NoMemory>
    ensures { OnOk result (stores.new ≡ stores.old ++ spec.store_at given.now cell name) }
{
    let Ref::Store(name) = name else {
        return Ok(());
    };
    match holder(given, name) {
        Some(found) => stores.push(StoreCell {
            cell,
            holder: found.known,
            span: found.named.span,
        }),
        None => Ok(()),
    }
}

// What is to hold the store of a name, among what may hold one.
fn holder(given: &[Given], name: Name) -> Option<Given>
    ensures { result ≡ spec.holder given.now name }
{
    for found in given {
        if found.named.name == name {
            return Some(*found);
        }
    }
    None
}
