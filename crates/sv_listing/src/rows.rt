// The lines of a listing.
ghost use Rattle.std.specs.Prelude.{◌≡◌, ℕ, ◌++◌, true, map, OnOk, string_bytes};
ghost use Rattle.std.specs.List.{flat_map, enumerate_from};
ghost use Rattle.sv_ast.specs.declared.names.Ref.{Ref as AnyRef};
ghost use Rattle.sv_lines.specs.Lines.{ascends};
ghost use Rattle.sv_listing.specs.Listing as spec;

use crate::cells::{push_cells, push_reading, push_ref};
use sv_ast::{LineStarts, Ref};
use sv_base::{Names, NoMemory};
use sv_code::{Part, Run};
use sv_lines::place_of;

fn push_cell_line(
    text: &mut String,
    names: &Names,
    number: usize,
    cell: Ref,
) -> Result<(), NoMemory>
    ensures { OnOk result (string_bytes text.new ≡ string_bytes text.old ++ spec.cell_line names.now number cell) }
{
    write!(text, "cell {number} ")?;
    push_ref(text, names, cell)?;
    Ok(text.push_str("\n")?)
}

/// Appends the lines of cells.
pub(crate) fn push_cell_lines(
    text: &mut String,
    names: &Names,
    cells: &[Ref],
) -> Result<(), NoMemory>
    ensures { OnOk result (string_bytes text.new ≡ string_bytes text.old ++ flat_map (λ (c : ℕ × AnyRef). spec.cell_line names.now c.0 c.1) (enumerate_from 0 cells.now)) }
{
    for (number, cell) in cells.iter().enumerate() {
        push_cell_line(text, names, number, *cell)?;
    }
    Ok(())
}

fn push_run(
    text: &mut String,
    names: &Names,
    cells: &[Ref],
    lines: &LineStarts,
    run: &Run,
) -> Result<(), NoMemory>
    requires { ascends lines.now ≡ true }
    ensures { OnOk result (string_bytes text.new ≡ string_bytes text.old ++ spec.run_line names.now cells.now lines.now run.now) }
{
    let (line, column) = place_of(lines, run.span.from);
    let number = run.number;
    write!(text, "run {number} at {line}:{column} reads ")?;
    push_cells(text, names, cells, run.reads.as_slice())?;
    text.push_str(" sets ")?;
    push_cells(text, names, cells, run.sets.as_slice())?;
    Ok(text.push_str("\n")?)
}

/// Appends the lines of reactive statements.
pub(crate) fn push_runs(
    text: &mut String,
    names: &Names,
    cells: &[Ref],
    lines: &LineStarts,
    runs: &[Run],
) -> Result<(), NoMemory>
    requires { ascends lines.now ≡ true }
    ensures { OnOk result (string_bytes text.new ≡ string_bytes text.old ++ flat_map (spec.run_line names.now cells.now lines.now) runs.now) }
{
    for run in runs {
        push_run(text, names, cells, lines, run)?;
    }
    Ok(())
}

fn push_part(
    text: &mut String,
    names: &Names,
    cells: &[Ref],
    lines: &LineStarts,
    part: &Part,
) -> Result<(), NoMemory>
    requires { ascends lines.now ≡ true }
    ensures { OnOk result (string_bytes text.new ≡ string_bytes text.old ++ spec.part_line names.now cells.now lines.now part.now) }
{
    let (line, column) = place_of(lines, part.span.from);
    write!(text, "part {line}:{column} reads ")?;
    push_reading(text, names, cells, &part.reads)?;
    Ok(text.push_str("\n")?)
}

/// Appends the lines of expressions of markup.
pub(crate) fn push_parts(
    text: &mut String,
    names: &Names,
    cells: &[Ref],
    lines: &LineStarts,
    parts: &[&Part],
) -> Result<(), NoMemory>
    requires { ascends lines.now ≡ true }
    ensures { OnOk result (string_bytes text.new ≡ string_bytes text.old ++ flat_map (spec.part_line names.now cells.now lines.now) (map (λ part. part.now) parts.now)) }
{
    for part in parts {
        push_part(text, names, cells, lines, part)?;
    }
    Ok(())
}
