// The limits of files, values and parsers. `docs/formats.md` says what is answered above each.

/// The most bytes that a file of a program may have.
pub const FILE_LIMIT: usize = 1_048_576;

/// The most files of a program.
pub const FILE_COUNT_LIMIT: usize = 64;

/// The most cells of a component.
pub const CELL_LIMIT: usize = 248;

/// The most bytes that an events file may have.
pub const EVENTS_FILE_LIMIT: usize = 16_777_216;

/// The most events of a run.
pub const EVENT_LIMIT: usize = 100_000;

/// The greatest depth of a value: 0 for a plain one, and for a list, an object or a function one more than
/// its deepest part.
pub const VALUE_DEPTH_LIMIT: u32 = 64;

/// The greatest size of a value: 1 for each value in it, and 1 for each byte of a text and of an object's key.
pub const VALUE_SIZE_LIMIT: u32 = 1_000_000;

/// The most constructs of a file that enclose one another.
pub const NEST_LIMIT: usize = 32;

/// The most links of a chain: of the operators of one level, of the suffixes of one primary, or of the
/// conditions of one `if`.
pub const LINK_LIMIT: usize = 1_000;

/// A text that is read by place has fewer bytes than this, so that each place and the one behind it is a `u32`.
pub const TEXT_LIMIT: usize = 4_294_967_295;

/// The most names of a table, so that each number and the count are a `u32`.
pub const NAME_LIMIT: usize = 4_294_967_295;
