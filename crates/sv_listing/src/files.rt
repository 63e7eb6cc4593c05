// The listings of files.
ghost use Rattle.std.specs.Prelude.{◌≡◌, ◌++◌, true, OnOk, string_bytes};
ghost use Rattle.std.specs.List.{flat_map};
ghost use Rattle.sv_lines.specs.Lines.{ascends};
ghost use Rattle.sv_listing.specs.Listing as spec;

use crate::found::Parts;
use crate::rows::{push_cell_lines, push_parts, push_runs};
use crate::walk::find_in_frags;
use std::alloc::Global;
use sv_ast::LineStarts;
use sv_base::{Names, NoMemory};
use sv_code::{Component, FileCode, ProgramFile};

/// What files are listed with: the texts of names, and the expressions inside of component tags by number.
#[derive(Clone, Copy)]
pub(crate) struct Known<'a> {
    pub alloc: Global,
    pub names: &'a Names,
    pub insides: &'a [Parts<'a>],
}

// The lines behind the one with the name of the file.
fn push_lines(
    text: &mut String,
    known: &Known<'_>,
    lines: &LineStarts,
    component: &Component,
) -> Result<(), NoMemory>
    requires { ascends lines.now ≡ true }
    ensures { OnOk result (string_bytes text.new ≡ string_bytes text.old ++ spec.component_lines known.now.names.now known.now.insides.now lines.now component.now) }
{
    let cells = component.cells.as_slice();
    push_cell_lines(text, known.names, cells)?;
    push_runs(text, known.names, cells, lines, component.runs.as_slice())?;
    let mut parts = Parts::new(known.alloc);
    find_in_frags(&mut parts, known.insides, component.markup.as_slice())?;
    push_parts(text, known.names, cells, lines, parts.as_slice())
}

fn push_component(
    text: &mut String,
    known: &Known<'_>,
    name: &str,
    lines: &LineStarts,
    component: &Component,
) -> Result<(), NoMemory>
    requires { ascends lines.now ≡ true }
    ensures { OnOk result (string_bytes text.new ≡ string_bytes text.old ++ spec.component_text known.now.names.now known.now.insides.now name.now lines.now component.now) }
{
    writeln!(text, "component {name}")?;
    push_lines(text, known, lines, component)
}

fn push_file(text: &mut String, known: &Known<'_>, file: &ProgramFile) -> Result<(), NoMemory>
    requires { ascends file.now.lines ≡ true }
    ensures { OnOk result (string_bytes text.new ≡ string_bytes text.old ++ spec.file_text known.now.names.now known.now.insides.now file.now) }
{
    match &file.code {
        FileCode::Component(component) => {
            push_component(text, known, file.name.as_str(), &file.lines, component)
        }
        FileCode::Module(_) => Ok(()),
    }
}

/// Appends the listings of files.
pub(crate) fn push_files(
    text: &mut String,
    known: &Known<'_>,
    files: &[ProgramFile],
) -> Result<(), NoMemory>
    requires { spec.LinesAscend files.now }
    ensures { OnOk result (string_bytes text.new ≡ string_bytes text.old ++ flat_map (spec.file_text known.now.names.now known.now.insides.now) files.now) }
{
    for file in files {
        push_file(text, known, file)?;
    }
    Ok(())
}
