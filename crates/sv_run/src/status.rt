// How a run ended.

/// How a run ended.
#[derive(Clone, Copy, Debug, PartialEq, Eq)]
pub enum Status {
    /// Everything was printed.
    Ok,
    /// The words are no form; the usage line was printed.
    Usage,
    /// A file of the program was refused.
    Source,
    /// The file of events or steps was refused.
    Events,
    /// A turn was refused.
    Turn,
    /// A file could not be read. Nothing was printed.
    ReadFault,
    /// The output could not be written. A prefix of it was printed.
    WriteFault,
    /// Memory was wanted. Nothing or a prefix of the output was printed.
    NoMemory,
    /// A file isn't there.
    Missing,
    /// An expectation of a test didn't hold.
    Failed = 10,
}
