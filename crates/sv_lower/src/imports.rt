// Imports.
ghost use Rattle.std.specs.Prelude.{◌≡◌, IfOk};

use std::alloc::Global;
use sv_ast::{Import, ImportNames};
use sv_base::NoMemory;

/// The same import.
pub(crate) fn copy_import(alloc: Global, import: &Import) -> Result<Import, NoMemory>
    ensures { IfOk result (λ copy. copy ≡ import.now) }
{
    Ok(Import {
        from: import.from.share()?,
        whole: import.whole,
        names: ImportNames::copy_of(alloc, import.names.as_slice())?,
    })
}
