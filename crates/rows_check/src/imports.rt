// Wrong imports of small programs, whose components are scripts alone, and the pure functions of such programs.
use crate::read::{Form, Source, program, sources};
use crate::unanswered::Unanswered;
use crate::words::{listed, push_found};
use std::alloc::Global;
use sv_ast::Bundle;
use sv_base::Span;
use sv_effects::pure_functions;
use sv_imports::{import_cycles, unknown_imports};
use sv_list::Items;

/// The imports that are part of a cycle, file by file.
pub fn cycles(alloc: Global, row: &str) -> Result<String, Unanswered> {
    let sources = sources(alloc, row)?;
    let bundle = program(alloc, &sources, Form::Script)?;
    found(alloc, &sources, &import_cycles(alloc, &bundle)?)
}

/// The names that are imported although nothing gives them, file by file.
pub fn unknown(alloc: Global, row: &str) -> Result<String, Unanswered> {
    let sources = sources(alloc, row)?;
    let bundle = program(alloc, &sources, Form::Script)?;
    found(alloc, &sources, &unknown_imports(alloc, &bundle)?)
}

// What stands at the places of each file, with `/` between files.
fn found(
    alloc: Global,
    sources: &[Source<'_>],
    places: &Items<Items<Span>>,
) -> Result<String, Unanswered> {
    let mut line = String::new(alloc);
    for (file, (source, places)) in sources.iter().zip(places.as_slice()).enumerate() {
        line.push_str(if file > 0 { "/" } else { "" })?;
        push_found(&mut line, source.text, places.as_slice())?;
    }
    Ok(line)
}

/// The pure functions of the last file.
pub fn pure(alloc: Global, row: &str) -> Result<String, Unanswered> {
    let sources = sources(alloc, row)?;
    let bundle = program(alloc, &sources, Form::Script)?;
    last_pure(alloc, &bundle)
}

fn last_pure(alloc: Global, bundle: &Bundle) -> Result<String, Unanswered> {
    match pure_functions(alloc, bundle)?.as_slice().last() {
        Some(list) => listed(alloc, &bundle.names, list.as_slice()),
        None => Ok(String::new(alloc)),
    }
}
