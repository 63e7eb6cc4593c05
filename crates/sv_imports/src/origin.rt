// What an import takes its names from.
ghost use Rattle.std.specs.Prelude.{◌≡◌};
ghost use Rattle.sv_imports.specs.Unknown as spec;

use crate::files::file_named;
use sv_ast::SourceFile;
use sv_base::built_in::{LIFE_MODULE, STORE_MODULE};

/// What an import takes its names from.
#[derive(Clone, Copy)]
pub enum Origin {
    /// `svelte`.
    Life,
    /// `svelte/store`.
    Stores,
    /// A file, by its place among the files.
    File(usize),
    /// No file that is there.
    Nowhere,
}

/// What an import from this text takes its names from.
pub fn origin_of(files: &[SourceFile], from: &str) -> Origin
    ensures { result ≡ spec.origin_of files.now from.now }
{
    if from == LIFE_MODULE {
        return Origin::Life;
    }
    if from == STORE_MODULE {
        return Origin::Stores;
    }
    match file_named(files, from) {
        Some(file) => Origin::File(file),
        None => Origin::Nowhere,
    }
}
