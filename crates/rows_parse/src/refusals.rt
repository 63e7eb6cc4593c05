// Places, refusals and tables of names in words.
use std::alloc::{AllocError, Global};
use sv_ast::ParseError;
use sv_base::{Names, NoMemory, Span};

/// A place as its file, where it begins and where it ends.
pub fn placed(alloc: Global, at: Span) -> Result<String, AllocError> {
    format!(in alloc; "{}:{}..{}", at.file, at.from, at.to)
}

/// A refusal as its kind and its place.
pub fn refused(alloc: Global, error: ParseError) -> Result<String, NoMemory> {
    let ParseError::Refused(found) = error else {
        return Err(NoMemory);
    };
    let place = placed(alloc, found.at)?;
    Ok(format!(in alloc; "{} {}", found.kind, place.as_str())?)
}

/// A refusal as its kind and where it begins.
pub fn refused_at(alloc: Global, error: ParseError) -> Result<String, NoMemory> {
    let ParseError::Refused(found) = error else {
        return Err(NoMemory);
    };
    Ok(format!(in alloc; "{} @{}", found.kind, found.at.from)?)
}

/// Whether a text is read, and how many names there are then.
pub fn with_count(alloc: Global, is_read: bool, names: &Names) -> Result<String, AllocError> {
    let word = if is_read { "read" } else { "refused" };
    format!(in alloc; "{word} {}", names.len())
}
