// Places in the files of a program.

/// The bytes from `from` to `to`, without the last, of the file with this number.
#[derive(Clone, Copy, Debug, PartialEq, Eq)]
pub struct Span {
    pub file: u16,
    pub from: u32,
    pub to: u32,
}
