// Why the files of a program are not loaded.
use sv_ast::Kind;
use sv_base::{NoMemory, Text};
use thiserror::Error;

/// What is answered in place of the files of a program. A file goes by the name that it has on the shelf.
#[derive(Debug, Drop, Error)]
pub enum LoadError {
    /// There is no file of that name.
    #[error("a file is missing")]
    Missing(Text),
    /// The file has more than `FILE_LIMIT` bytes.
    #[error("a file is too long")]
    TooLong(Text),
    /// The file would be one more than `FILE_COUNT_LIMIT`. It was not read.
    #[error("there are too many files")]
    TooMany(Text),
    /// The file has no tree. The line and the column, in bytes, are from 1.
    #[error("a file has no tree: {kind}")]
    Refused {
        file: Text,
        kind: Kind,
        line: u32,
        column: u32,
    },
    /// A file could not be read.
    #[error("a file could not be read")]
    Failed,
    #[error("out of memory")]
    NoMemory,
}

impl From<NoMemory> for LoadError {
    ghost use Rattle.std.specs.Prelude.{◌≡◌};
    ghost use Rattle.sv_load.specs.declared.refusals.LoadError.TheVariants as errors;

    ghost from_gives = { λ _ error. error ≡ errors.NoMemory };

    fn from(_: NoMemory) -> LoadError {
        LoadError::NoMemory
    }
}
