// The first mistake of small programs.
use crate::read::{Form, Source, program, sources};
use crate::unanswered::Unanswered;
use crate::words::text_at;
use std::alloc::Global;
use sv_check::{Checked, check};
use sv_resolve::{CheckError, CheckRefusal};

/// The first mistake of a program, as its kind, the name of its file, and what stands at its place.
pub fn first(alloc: Global, form: Form, row: &str) -> Result<String, Unanswered> {
    let sources = sources(alloc, row)?;
    let bundle = program(alloc, &sources, form)?;
    outcome(alloc, &sources, check(alloc, &bundle))
}

fn outcome(
    alloc: Global,
    sources: &[Source<'_>],
    found: Result<Checked<'_>, CheckError>,
) -> Result<String, Unanswered> {
    match found {
        Ok(_) => Ok(String::from_str(alloc, "accepted")?),
        Err(CheckError::Refused(refusal)) => told(alloc, sources, &refusal),
        Err(CheckError::NoMemory) => Err(Unanswered::NoMemory),
    }
}

fn told(
    alloc: Global,
    sources: &[Source<'_>],
    refusal: &CheckRefusal,
) -> Result<String, Unanswered> {
    let Some(source) = sources.get(refusal.at.file as usize) else {
        return Ok(String::from_str(alloc, "no such file")?);
    };
    let mut line = refusal.kind.to_string(alloc)?;
    write!(
        line,
        " {}: {}",
        source.name,
        text_at(source.text, refusal.at)
    )?;
    Ok(line)
}
