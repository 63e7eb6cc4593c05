//! The listing of a compiled program: what each reactive statement and each expression of markup looks at, and in which order the statements
//! run.
#![tactic(auto)]

ghost use Rattle.std.specs.Prelude.{◌≡◌, IfOk};
ghost use Rattle.sv_listing.specs.Listing as spec;

mod attributes;
mod cells;
mod files;
mod found;
mod names;
mod rows;
mod walk;

use files::{Known, push_files};
use found::insides_of;
use std::alloc::Global;
use sv_base::NoMemory;
use sv_code::Program;

/// The listing of a program in UTF-8, whose lines end with LF. For each component, in the order of the files, a line with the name
/// of its file; a line for each cell, by number; one for each reactive statement, in the order in which they run; and one
/// for each expression of its markup, in the order of the text, those of `on:` aside. What is looked at is told by the
/// names of the cells, then those of the locals, with commas between, or `-` where there is none. Modules have no lines.
///
/// A number that no cell has, and a name without a text, are told by the empty text.
pub fn listing(alloc: Global, program: &Program) -> Result<Vec<u8>, NoMemory>
    requires { spec.LinesAscend program.now.files }
    ensures { IfOk result (λ text. text.items ≡ spec.listing program.now) }
{
    let insides = insides_of(alloc, program.tags.as_slice())?;
    let known = Known {
        alloc,
        names: &program.names,
        insides: &insides,
    };
    let mut text = String::new(alloc);
    push_files(&mut text, &known, program.files.as_slice())?;
    Ok(text.into_bytes())
}
