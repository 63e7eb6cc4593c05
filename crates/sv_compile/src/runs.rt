// What the statements at the top of a script make of a component: its props and its reactive statements.
ghost use Rattle.std.specs.Prelude.{◌≡◌, ◌≤◌, ◌<◌, ◌++◌, length, map, All, IfOk, OnOk};
ghost use Rattle.sv_imports.specs.Given.{decl_names};
ghost use Rattle.sv_slots.specs.Sheets.{all_props, prop_names as spec_prop_names};
ghost use Rattle.sv_compile.specs.Runs as spec;

use std::alloc::Global;
use sv_ast::{Decl, Ref, RefList, Stmt, StmtKind};
use sv_base::NoMemory;
use sv_check::is_reactive;
use sv_code::{Run, Runs};
use sv_deps::numbers;
use sv_names::{assigned_names, read_names};

// A reactive statement, and which statement of its script it is.
#[derive(Clone, Copy)]
struct Reactive<'a> {
    place: u32,
    stmt: &'a Stmt,
}

/// The reactive statements of a script, in this order of their numbers, in a component of some cells.
pub(crate) fn runs_of(
    alloc: Global,
    cells: &[Ref],
    stmts: &[Stmt],
    order: &[u32],
) -> Result<Runs, NoMemory>
    requires few { length cells.now ≤ 256 }
    requires below { All (λ n. n < length (spec.reactives stmts.now)) order.now }
    ensures { IfOk result (λ runs. runs ≡ spec.runs cells.now (spec.reactives stmts.now) order.now) }
{
    let reactives = reactives(alloc, stmts)?;
    let mut runs = Runs::new(alloc);
    for number in order {
        let reactive = &reactives[*number as usize];
        runs.push(run_of(alloc, cells, *number, reactive)?)?;
    }
    Ok(runs)
}

fn run_of(
    alloc: Global,
    cells: &[Ref],
    number: u32,
    reactive: &Reactive<'_>,
) -> Result<Run, NoMemory>
    requires { length cells.now ≤ 256 }
    ensures { IfOk result (λ run. run ≡ spec.run cells.now number (reactive.now.place, reactive.now.stmt.now)) }
{
    let reads = read_names(alloc, reactive.stmt)?;
    let sets = assigned_names(alloc, reactive.stmt)?;
    Ok(Run {
        number,
        span: reactive.stmt.span,
        stmt: reactive.place,
        reads: numbers(alloc, cells, reads.as_slice())?,
        sets: numbers(alloc, cells, sets.as_slice())?,
    })
}

// The reactive statements of a script, in the order of the text.
fn reactives<'a>(alloc: Global, stmts: &'a [Stmt]) -> Result<Vec<Reactive<'a>>, NoMemory>
    ensures { IfOk result (λ list. map (λ r. (r.place, r.stmt.now)) list.items ≡ spec.reactives stmts.now) }
{
    let mut list = Vec::new(alloc);
    for (n, stmt) in stmts.iter().enumerate() {
        if is_reactive(stmt) {
            let place = place_of(n)?;
            list.push(Reactive { place, stmt })?;
        }
    }
    Ok(list)
}

// The place of a statement, where there is a number below 2^32 for it.
fn place_of(n: usize) -> Result<u32, NoMemory>
    ensures { IfOk result (λ place. place ≡ n) }
{
    match u32::try_from(n) {
        Ok(place) => Ok(place),
        Err(_) => Err(NoMemory),
    }
}

/// The names that `export let` declares at the top of a script, in the order of the text.
pub(crate) fn prop_names(alloc: Global, stmts: &[Stmt]) -> Result<RefList, NoMemory>
    ensures { IfOk result (λ names. names ≡ all_props stmts.now) }
{
    let mut names = RefList::new(alloc);
    for stmt in stmts {
        add_props(&mut names, stmt)?;
    }
    Ok(names)
}

fn add_props(names: &mut RefList, stmt: &Stmt) -> Result<(), NoMemory>
    ensures { OnOk result (names.new ≡ names.old ++ spec_prop_names stmt.now) }
{
    match stmt.kind.get() {
        StmtKind::Export(decls) => add_decls(names, decls.as_slice()),
        _ => Ok(()),
    }
}

fn add_decls(names: &mut RefList, decls: &[Decl]) -> Result<(), NoMemory>
    ensures { OnOk result (names.new ≡ names.old ++ decl_names decls.now) }
{
    for decl in decls {
        names.push(Ref::Plain(decl.name.name))?;
    }
    Ok(())
}
