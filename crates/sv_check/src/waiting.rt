// Reactive statements that wait for one another, and the order in which others run.
ghost use Rattle.std.specs.Prelude.{◌≡◌, ◌∷◌, ◌++◌, [], map, IfOk, OnOk};
ghost use Rattle.std.specs.Option.{option_to_list};
ghost use Rattle.sv_order.specs.ReactiveOrder.{IsOrder, IsEachOnce};
ghost use Rattle.sv_check.specs.Waiting as spec;

use crate::markup::add_all;
use std::alloc::Global;
use sv_ast::{Ref, RefList, Stmt, StmtKind};
use sv_base::{NoMemory, Span};
use sv_list::Items;
use sv_names::{Distinct, assigned_names, read_names};
use sv_order::{OrderError, Reads, order};

/// The order in which reactive statements run, or the place of the first that waits for itself.
#[derive(Drop)]
pub(crate) struct Run {
    pub(crate) order: Vec<u32>,
    pub(crate) waiting: Items<Span>,
}

/// What comes of the reactive statements at the top of a file with some cells.
pub(crate) fn run_of(alloc: Global, cells: &[Ref], stmts: &[Stmt]) -> Result<Run, NoMemory>
    ensures waiting { IfOk result (λ run. spec.AreWaiting cells.now stmts.now run.waiting) }
    ensures order { IfOk result (λ run. run.waiting ≡ [] → IsOrder (spec.reads cells.now stmts.now) run.order.items) }
    ensures once { IfOk result (λ run. run.waiting ≡ [] → IsEachOnce (spec.reads cells.now stmts.now) run.order.items) }
{
    let reads = reads_of(alloc, cells, stmts)?;
    match order(alloc, &reads) {
        Ok(order) => Ok(Run {
            order,
            waiting: Items::new(alloc),
        }),
        Err(OrderError::Cycle(cycle)) => Ok(Run {
            order: Vec::new(alloc),
            waiting: place_at(alloc, stmts, &cycle)?,
        }),
        Err(OrderError::NoMemory) => Err(NoMemory),
    }
}

// What each reactive statement reads and assigns.
fn reads_of(alloc: Global, cells: &[Ref], stmts: &[Stmt]) -> Result<Vec<Reads>, NoMemory>
    ensures { IfOk result (λ reads. reads.items ≡ spec.reads cells.now stmts.now) }
{
    let mut known = Distinct::new(alloc);
    add_all(&mut known, cells)?;
    reads_beside(alloc, &known, stmts)
}

fn reads_beside(alloc: Global, cells: &Distinct, stmts: &[Stmt]) -> Result<Vec<Reads>, NoMemory>
    ensures { IfOk result (λ reads. reads.items ≡ spec.reads cells.now stmts.now) }
{
    let mut reads = Vec::new(alloc);
    for stmt in stmts {
        if is_reactive(stmt) {
            reads.push(Reads {
                reads: read_names(alloc, stmt)?,
                sets: sets_of(alloc, cells, stmt)?,
            })?;
        }
    }
    Ok(reads)
}

// What a statement assigns: a cell `x` with a `$x` is assigned together with that.
fn sets_of(alloc: Global, cells: &Distinct, stmt: &Stmt) -> Result<RefList, NoMemory>
    ensures { IfOk result (λ sets. sets ≡ spec.sets cells.now stmt.now) }
{
    let names = assigned_names(alloc, stmt)?;
    let mut sets = RefList::new(alloc);
    for name in names.as_slice() {
        add_assigned(&mut sets, cells, *name)?;
    }
    Ok(sets)
}

fn add_assigned(sets: &mut RefList, cells: &Distinct, name: Ref) -> Result<(), NoMemory>
    ensures { OnOk result (sets.new ≡ sets.old ++ name ∷ option_to_list (spec.store_beside cells.now name)) }
{
    sets.push(name)?;
    if let Some(store) = store_beside(cells, name) {
        sets.push(store)?;
    }
    Ok(())
}

// The name `$x` beside that of a cell `x`.
fn store_beside(cells: &Distinct, name: Ref) -> Option<Ref>
    ensures { result ≡ spec.store_beside cells.now name }
{
    let Ref::Plain(plain) = name else {
        return None;
    };
    let store = Ref::Store(plain);
    if cells.has(name) && cells.has(store) {
        return Some(store);
    }
    None
}

/// Whether a statement is reactive, as one after `$:` is.
pub fn is_reactive(stmt: &Stmt) -> bool
    ensures { result ≡ spec.is_reactive stmt.now }
{
    matches!(stmt.kind.get(), StmtKind::React(_))
}

// The place of the first statement of a cycle.
fn place_at(alloc: Global, stmts: &[Stmt], cycle: &[u32]) -> Result<Items<Span>, NoMemory>
    ensures { IfOk result (λ places. places ≡ spec.first_place stmts.now cycle.now) }
{
    let spans = reactive_spans(alloc, stmts)?;
    let mut places = Items::new(alloc);
    if let Some(first) = cycle.first() {
        if let Some(at) = spans.as_slice().get(*first as usize) {
            places.push(*at)?;
        }
    }
    Ok(places)
}

fn reactive_spans(alloc: Global, stmts: &[Stmt]) -> Result<Items<Span>, NoMemory>
    ensures { IfOk result (λ spans. spans ≡ map (λ s. s.span) (spec.reactives stmts.now)) }
{
    let mut spans = Items::new(alloc);
    for stmt in stmts {
        if is_reactive(stmt) {
            spans.push(stmt.span)?;
        }
    }
    Ok(spans)
}
