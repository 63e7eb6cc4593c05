// What holds between the files of a bundle.
ghost use Rattle.std.specs.Prelude.{IfOk};
ghost use Rattle.sv_check.specs.Found.{AreFound};

use std::alloc::Global;
use sv_ast::{Bundle, RefList};
use sv_base::{NoMemory, Span};
use sv_effects::pure_functions;
use sv_imports::{import_cycles, unknown_imports};
use sv_list::Items;
use sv_slots::{Sheet, sheets_of};

/// What is found before the files are looked at one by one: for each the imports that are part of a cycle, the names that it imports and
/// that aren't given, the names of pure functions, and what is known of its markup.
#[derive(Drop)]
pub(crate) struct Found {
    pub(crate) cycles: Items<Items<Span>>,
    pub(crate) unknown: Items<Items<Span>>,
    pub(crate) pure: Items<RefList>,
    pub(crate) sheets: Items<Sheet>,
}

/// Finds all that.
pub(crate) fn find_all(alloc: Global, bundle: &Bundle) -> Result<Found, NoMemory>
    ensures { IfOk result (AreFound bundle.now) }
{
    let cycles = import_cycles(alloc, bundle)?;
    let unknown = unknown_imports(alloc, bundle)?;
    let pure = pure_functions(alloc, bundle)?;
    let sheets = sheets_of(alloc, bundle)?;
    Ok(Found {
        cycles,
        unknown,
        pure,
        sheets,
    })
}
