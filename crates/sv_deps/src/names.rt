// What names look at.
ghost use Rattle.std.specs.Prelude.{◌≡◌, ◌≤◌, ◌++◌, not, length, filter, map, IfOk, OnOk};
ghost use Rattle.sv_names.specs.Distinct.{has};
ghost use Rattle.sv_names.specs.Locals.{name_of as spec_name_of, names_of};
ghost use Rattle.sv_deps.specs.Reading as spec;

use std::alloc::Global;
use sv_ast::{Ref, RefList};
use sv_base::NoMemory;
use sv_code::{CellList, Locals, Reading};
use sv_lower::TopNames;
use sv_names::{LocalScope, is_local, name_of};

/// What some names look at: the cells of these names by number, but for those that a local hides, and the locals of these names, in their
/// order; a name that nothing declares counts as a local, as it does in code. `tops` is what names stand for at the top of the file, `cells` are
/// those of the component, at most 256, and `locals` the scopes of markup round the place. `NoMemory` comes only where memory runs out.
///
/// The rule is this project's own: a part of a page is evaluated again where a cell or a local that it looks at has changed.
pub fn reading(
    alloc: Global,
    tops: &TopNames<'_>,
    cells: &[Ref],
    locals: &LocalScope<'_>,
    names: &[Ref],
) -> Result<Reading, NoMemory>
    requires { length cells.now ≤ 256 }
    ensures { IfOk result (λ reading. reading ≡ spec.reading tops.now cells.now (names_of locals.now) names.now) }
{
    let others = others(alloc, locals, names)?;
    Ok(Reading {
        cells: numbers(alloc, cells, others.as_slice())?,
        locals: all_locals(alloc, tops, locals, names)?,
    })
}

// The names that are none of the locals.
fn others(alloc: Global, locals: &LocalScope<'_>, names: &[Ref]) -> Result<RefList, NoMemory>
    ensures { IfOk result (λ others. others ≡ filter (λ name. not (has name (names_of locals.now))) names.now) }
{
    let mut others = RefList::new(alloc);
    for name in names {
        if !is_local(locals, *name) {
            others.push(*name)?;
        }
    }
    Ok(others)
}

// The names that count as locals.
fn all_locals(
    alloc: Global,
    tops: &TopNames<'_>,
    locals: &LocalScope<'_>,
    names: &[Ref],
) -> Result<Locals, NoMemory>
    ensures { IfOk result (λ list. list ≡ map spec_name_of (filter (spec.counts_as_local tops.now (names_of locals.now)) names.now)) }
{
    let mut list = Locals::new(alloc);
    for name in names {
        if counts_as_local(tops, locals, *name) {
            list.push(name_of(*name))?;
        }
    }
    Ok(list)
}

fn counts_as_local(tops: &TopNames<'_>, locals: &LocalScope<'_>, name: Ref) -> bool
    ensures { result ≡ spec.counts_as_local tops.now (names_of locals.now) name }
{
    is_local(locals, name) || tops.get(name).is_none()
}

/// The numbers of the cells that are among some names, ascending. `cells` are those of the component, at most 256. `NoMemory` comes only
/// where memory runs out.
pub fn numbers(alloc: Global, cells: &[Ref], names: &[Ref]) -> Result<CellList, NoMemory>
    requires { length cells.now ≤ 256 }
    ensures { IfOk result (λ numbers. numbers ≡ spec.numbers cells.now names.now) }
{
    let mut numbers = CellList::new(alloc);
    for (n, cell) in cells.iter().enumerate() {
        add_if(&mut numbers, is_there(names, *cell), n as u8)?;
    }
    Ok(numbers)
}

fn is_there(names: &[Ref], name: Ref) -> bool
    ensures { result ≡ has name names.now }
{
    names.contains(&name)
}

/// Adds a number, if it is wanted.
pub(crate) fn add_if(numbers: &mut CellList, is_wanted: bool, n: u8) -> Result<(), NoMemory>
    ensures { OnOk result (numbers.new ≡ numbers.old ++ spec.number_if is_wanted n) }
{
    if is_wanted {
        numbers.push(n)?;
    }
    Ok(())
}
