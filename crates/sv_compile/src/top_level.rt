// What names stand for at the top of a file.
ghost use Rattle.std.specs.Prelude.{◌≡◌, ◌≤◌, IfOk, OnOk, length, map};
ghost use Rattle.sv_compile.specs.TopLevel as spec;
ghost use Rattle.sv_lower.specs.Tops.{with_all};

use crate::constants::Given;
use std::alloc::Global;
use sv_ast::Ref;
use sv_base::built_in::{BOOLEAN, CONSOLE, MATH, STRING};
use sv_base::{Names, NoMemory};
use sv_code::{BuiltIn, Known};
use sv_lower::TopNames;

/// What names stand for at the top of a file with some cells, constants and imports. `NoMemory` comes only where memory runs out.
pub(crate) fn tops<'a>(
    alloc: Global,
    names: &'a Names,
    cells: &[Ref],
    given: &[Given],
) -> Result<TopNames<'a>, NoMemory>
    requires { length cells.now ≤ 256 }
    ensures { IfOk result (λ tops. tops ≡ spec.tops names.now cells.now given.now) }
{
    let mut tops = TopNames::new(alloc, names)?;
    add_cells(&mut tops, cells)?;
    add_given(&mut tops, given)?;
    add_built(&mut tops, names)?;
    Ok(tops)
}

fn add_cells(tops: &mut TopNames<'_>, cells: &[Ref]) -> Result<(), NoMemory>
    requires { length cells.now ≤ 256 }
    ensures { OnOk result (tops.new ≡ record tops.old { known = with_all tops.old.known (spec.cells_from 0 cells.now) }) }
{
    for (n, cell) in cells.iter().enumerate() {
        tops.add(*cell, Known::Cell(n as u8))?;
    }
    Ok(())
}

fn add_given(tops: &mut TopNames<'_>, given: &[Given]) -> Result<(), NoMemory>
    ensures { OnOk result (tops.new ≡ record tops.old { known = with_all tops.old.known (map spec.given_name given.now) }) }
{
    for found in given {
        tops.add(Ref::Plain(found.named.name), found.known)?;
    }
    Ok(())
}

fn add_built(tops: &mut TopNames<'_>, names: &Names) -> Result<(), NoMemory>
    ensures { OnOk result (tops.new ≡ record tops.old { known = with_all tops.old.known (spec.all_built names.now) }) }
{
    add_text(tops, names, STRING, BuiltIn::String)?;
    add_text(tops, names, BOOLEAN, BuiltIn::Boolean)?;
    add_text(tops, names, MATH, BuiltIn::Math)?;
    add_text(tops, names, CONSOLE, BuiltIn::Console)
}

fn add_text(
    tops: &mut TopNames<'_>,
    names: &Names,
    text: &str,
    what: BuiltIn,
) -> Result<(), NoMemory>
    ensures { OnOk result (tops.new ≡ record tops.old { known = with_all tops.old.known (spec.built names.now text.now what) }) }
{
    match names.find(text) {
        Some(name) => tops.add(Ref::Plain(name), Known::BuiltIn(what)),
        None => Ok(()),
    }
}
