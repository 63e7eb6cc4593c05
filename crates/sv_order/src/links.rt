// The points for visits: the statements by their places, and behind them the assigned names by their numbers.
ghost use Rattle.std.specs.Prelude.{◌≡◌, ◌+◌, ◌<◌, ◌≤◌, ◌^◌, ℕ, [], ◌∷◌, ◌++◌, IfOk, OnOk, length, filter, not, if◌then◌else◌};
ghost use Rattle.sv_graph.specs.Links.{links_of, IsWhole};
ghost use Rattle.sv_names.specs.Distinct.{has};
ghost use Rattle.sv_order.specs.ReactiveOrder.{before_of};
ghost use Rattle.sv_order.specs.Points.{KnowsAll, IsTwoStep, is_last, points_of, NotesSetter, TellsOwn, AreBelow};

use crate::names::number_of;
use crate::reads::Reads;
use indexmap::IndexSet;
use std::alloc::Global;
use sv_ast::Ref;
use sv_base::NoMemory;
use sv_graph::unlinked;
use sv_list::Items;

/// The links of statements and names. A statement is linked to each name that it reads and doesn't assign, and a name to the
/// statements that assign it.
pub(crate) fn statement_links(
    alloc: Global,
    list: &[Reads],
    names: &IndexSet<Ref>,
) -> Result<Vec<Items<u32>>, NoMemory>
    requires knows { KnowsAll list.now names.now.keys }
    requires few { length list.now + length names.now.keys < 2 ^ 32 }
    ensures size { IfOk result (λ links. length links.items ≡ length list.now + length names.now.keys) }
    ensures whole { IfOk result (λ links. IsWhole links.items) }
    ensures two { IfOk result (λ links. IsTwoStep (length list.now) (before_of list.now) (links_of links.items)) }
{
    let count = list.len() as u32;
    let mut setters = unlinked(alloc, names.len())?;
    let mut links = Vec::new(alloc);
    for (place, statement) in list.iter().enumerate() {
        note_setter(names, &mut setters, statement.sets.as_slice(), place as u32)?;
        let needs = needs(alloc, names, &setters, statement, place as u32, count)?;
        links.push(needs)?;
    }
    links.append(&mut setters)?;
    Ok(links)
}

// Notes a statement as the last that assigns each of some names.
fn note_setter(
    names: &IndexSet<Ref>,
    setters: &mut Vec<Items<u32>>,
    sets: &[Ref],
    statement: u32,
) -> Result<(), NoMemory>
    requires size { length setters.old.items ≡ length names.now.keys }
    requires earlier { AreBelow setters.old.items statement }
    ensures size { length setters.new.items ≡ length names.now.keys }
    ensures below { OnOk result (AreBelow setters.new.items (statement + 1)) }
    ensures setters { OnOk result (NotesSetter names.now.keys setters.old.items sets.now statement setters.new.items) }
    ensures own { OnOk result (TellsOwn names.now.keys setters.new.items sets.now statement) }
{
    for name in sets {
        if let Some(at) = number_of(names, *name) {
            note_last(&mut setters[at], statement)?;
        }
    }
    Ok(())
}

// Puts a statement at the end of a list, if it isn't there.
fn note_last(list: &mut Items<u32>, statement: u32) -> Result<(), NoMemory>
    ensures { OnOk result (list.new ≡ (if is_last list.old statement then list.old else list.old ++ statement ∷ [])) }
{
    if !ends_with(list, statement) {
        list.push(statement)?;
    }
    Ok(())
}

// Whether the statement is the last of a list.
fn ends_with(list: &Items<u32>, statement: u32) -> bool
    ensures { result ≡ is_last list.now statement }
{
    match list.as_slice().last() {
        Some(last) => *last == statement,
        None => false,
    }
}

// The points of the names that a statement reads and doesn't assign, where some statement assigns them. The statement is the
// last of the setters of each name that it assigns, and of no other.
fn needs(
    alloc: Global,
    names: &IndexSet<Ref>,
    setters: &[Items<u32>],
    statement: &Reads,
    place: u32,
    count: u32,
) -> Result<Items<u32>, NoMemory>
    requires size { length setters.now ≡ length names.now.keys }
    requires few { count + length names.now.keys < 2 ^ 32 }
    requires own { TellsOwn names.now.keys setters.now statement.now.sets place }
    ensures { IfOk result (λ needs. needs ≡ points_of names.now.keys count (filter (λ name. not (has name statement.now.sets)) statement.now.reads)) }
{
    let mut needs = Items::new(alloc);
    for name in statement.reads.as_slice() {
        if let Some(at) = number_of(names, *name) {
            if !ends_with(&setters[at], place) {
                needs.push(count + at as u32)?;
            }
        }
    }
    Ok(needs)
}
