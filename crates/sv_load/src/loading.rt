// Reads a file and what it imports.
ghost use Rattle.std.specs.Prelude.{◌≡◌, ◌≤◌, length, IfOk, OnOk, IfSome};
ghost use Rattle.sv_base.specs.declared.limits.TheConstants.{FILE_COUNT_LIMIT};
ghost use Rattle.sv_io.specs.Faults.{Rose};
ghost use Rattle.sv_lines.specs.Lines.{LinesAscend};
ghost use Rattle.sv_load.specs.Calls.{outcome_of};
ghost use Rattle.sv_load.specs.Loads as spec;
ghost use Rattle.sv_load.specs.Loads.{Loads, Reads, ReadsAll, Tells};

use crate::file::open;
use crate::imports::imported;
use crate::refusals::LoadError;
use std::alloc::Global;
use sv_ast::{Bundle, SourceFile};
use sv_base::{Names, Text};
use sv_io::Shelf;
use sv_list::Items;

// Whether a file of this name was read.
fn has_file(name: &Text, files: &[SourceFile]) -> bool
    ensures { result ≡ spec.has_file name.now files.now }
{
    files.iter().any(|file| file.name.as_str() == name.as_str())
}

// Reads the file of a name, if it was not read, and then what it imports.
#[cycle(reading)]
fn read<F: Shelf>(
    alloc: Global,
    shelf: &mut F,
    bundle: &mut Bundle,
    name: &Text,
) -> Result<(), LoadError>
    requires few { length bundle.old.files ≤ FILE_COUNT_LIMIT }
    requires lines { LinesAscend bundle.old.files }
    ensures reads { IfSome (F.files shelf.old) (λ files. Tells (Reads files name.now bundle.old) (outcome_of result bundle.new)) }
    ensures lines { OnOk result (LinesAscend bundle.new.files) }
    ensures few { OnOk result (length bundle.new.files ≤ FILE_COUNT_LIMIT) }
    ensures more { OnOk result (length bundle.old.files ≤ length bundle.new.files) }
    ensures same { F.files shelf.new ≡ F.files shelf.old }
    ensures later { F.faults shelf.old ≤ F.faults shelf.new }
    ensures failed { result ≡ Err LoadError.Failed → Rose (F.faults shelf.old) (F.faults shelf.new) }
{
    if has_file(name, bundle.files.as_slice()) {
        return Ok(());
    }
    let number = bundle.files.len();
    let file = open(alloc, shelf, &mut bundle.names, number, name)?;
    let names = imported(alloc, &file.tree)?;
    bundle.files.push(file)?;
    read_all(alloc, shelf, bundle, names.as_slice())
}

// Reads the files of these names in turn, each with what it imports before the next.
#[cycle(reading)]
fn read_all<F: Shelf>(
    alloc: Global,
    shelf: &mut F,
    bundle: &mut Bundle,
    names: &[Text],
) -> Result<(), LoadError>
    requires few { length bundle.old.files ≤ FILE_COUNT_LIMIT }
    requires lines { LinesAscend bundle.old.files }
    ensures reads { IfSome (F.files shelf.old) (λ files. Tells (ReadsAll files names.now bundle.old) (outcome_of result bundle.new)) }
    ensures lines { OnOk result (LinesAscend bundle.new.files) }
    ensures few { OnOk result (length bundle.new.files ≤ FILE_COUNT_LIMIT) }
    ensures more { OnOk result (length bundle.old.files ≤ length bundle.new.files) }
    ensures same { F.files shelf.new ≡ F.files shelf.old }
    ensures later { F.faults shelf.old ≤ F.faults shelf.new }
    ensures failed { result ≡ Err LoadError.Failed → Rose (F.faults shelf.old) (F.faults shelf.new) }
{
    for name in names {
        read(alloc, shelf, bundle, name)?;
    }
    Ok(())
}

/// Reads the root and then its imports in source order, each file once, and the imports of each before the next (Svelte 4
/// docs, 'Svelte components'; ECMA-262, 16.2.1). The files stand in the order of reading, each with its place there as its
/// number, and share one table of names. `from './x'` names the file `x`, and what the language gives is no file. A file
/// whose name ends in `.js` is a module, any other a component.
///
/// It stops at the first name that isn't on the shelf (`Missing`), file of more than `FILE_LIMIT` bytes (`TooLong`), file
/// that would be one more than `FILE_COUNT_LIMIT` and isn't read (`TooMany`), file without a tree (`Refused`), failed read,
/// or `NoMemory`.
pub fn load<F: Shelf>(alloc: Global, shelf: &mut F, root: &str) -> Result<Bundle, LoadError>
    ensures loads { IfSome (F.files shelf.old) (λ files. Loads files root.now result) }
    ensures lines { IfOk result (λ bundle. LinesAscend bundle.files) }
    ensures same { F.files shelf.new ≡ F.files shelf.old }
    ensures later { F.faults shelf.old ≤ F.faults shelf.new }
    ensures failed { result ≡ Err LoadError.Failed → Rose (F.faults shelf.old) (F.faults shelf.new) }
{
    let mut bundle = Bundle {
        names: Names::new(alloc)?,
        files: Items::new(alloc),
    };
    let root = Text::new(alloc, root)?;
    read(alloc, shelf, &mut bundle, &root)?;
    Ok(bundle)
}
