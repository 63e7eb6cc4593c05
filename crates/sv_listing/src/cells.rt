// The names of cells.
ghost use Rattle.std.specs.Prelude.{◌≡◌, ◌++◌, map, OnOk, string_bytes};
ghost use Rattle.sv_listing.specs.Names as spec;

use crate::names::{push_locals, push_more_locals, push_name};
use sv_ast::Ref;
use sv_base::{Name, Names, NoMemory};
use sv_code::Reading;
use sv_scopes::VIEW;

fn push_store(text: &mut String, names: &Names, name: Name) -> Result<(), NoMemory>
    ensures { OnOk result (string_bytes text.new ≡ string_bytes text.old ++ spec.store_text names.now name) }
{
    if Ref::Store(name) == VIEW {
        return Ok(text.push_str("$$view")?);
    }
    text.push_str("$")?;
    push_name(text, names, name)
}

/// Appends the name of a cell.
pub(crate) fn push_ref(text: &mut String, names: &Names, cell: Ref) -> Result<(), NoMemory>
    ensures { OnOk result (string_bytes text.new ≡ string_bytes text.old ++ spec.ref_text names.now cell) }
{
    match cell {
        Ref::Plain(name) => push_name(text, names, name),
        Ref::Store(name) => push_store(text, names, name),
    }
}

fn push_cell(text: &mut String, names: &Names, cells: &[Ref], number: u8) -> Result<(), NoMemory>
    ensures { OnOk result (string_bytes text.new ≡ string_bytes text.old ++ spec.cell_text names.now cells.now number) }
{
    match cells.get(number as usize) {
        Some(cell) => push_ref(text, names, *cell),
        None => Ok(()),
    }
}

// Appends cells, each behind a comma.
fn push_more_cells(
    text: &mut String,
    names: &Names,
    cells: &[Ref],
    numbers: &[u8],
) -> Result<(), NoMemory>
    ensures { OnOk result (string_bytes text.new ≡ string_bytes text.old ++ spec.behind_commas (map (spec.cell_text names.now cells.now) numbers.now)) }
{
    for number in numbers {
        text.push_str(",")?;
        push_cell(text, names, cells, *number)?;
    }
    Ok(())
}

/// Appends the list of cells.
pub(crate) fn push_cells(
    text: &mut String,
    names: &Names,
    cells: &[Ref],
    numbers: &[u8],
) -> Result<(), NoMemory>
    ensures { OnOk result (string_bytes text.new ≡ string_bytes text.old ++ spec.listed (map (spec.cell_text names.now cells.now) numbers.now)) }
{
    match numbers.split_first() {
        Some((first, more)) => {
            push_cell(text, names, cells, *first)?;
            push_more_cells(text, names, cells, more)
        }
        None => Ok(text.push_str("-")?),
    }
}

/// Appends the list of what is looked at: cells, and then locals.
pub(crate) fn push_reading(
    text: &mut String,
    names: &Names,
    cells: &[Ref],
    reading: &Reading,
) -> Result<(), NoMemory>
    ensures { OnOk result (string_bytes text.new ≡ string_bytes text.old ++ spec.listed (spec.reading_texts names.now cells.now reading.now)) }
{
    let locals = reading.locals.as_slice();
    if reading.cells.is_empty() {
        return push_locals(text, names, locals);
    }
    push_cells(text, names, cells, reading.cells.as_slice())?;
    push_more_locals(text, names, locals)
}
