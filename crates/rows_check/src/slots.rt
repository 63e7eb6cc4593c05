// The mistakes of tags in the first file of small programs.
use crate::read::{Form, program, sources};
use crate::unanswered::Unanswered;
use crate::words::push_found;
use std::alloc::Global;
use sv_ast::{Bundle, Ref};
use sv_base::{Names, Span};
use sv_list::Items;
use sv_names::Distinct;
use sv_slots::{Sheet, bad_binds, sheets_of, unknown_props, unknown_slots};

/// What a tag is asked for.
#[derive(Clone, Copy)]
pub enum Part {
    /// Attributes that are no props.
    Props,
    /// Content that has no slot of its own.
    Slots,
    /// A `bind:` that is wrong where `v` is the only variable.
    Binds,
}

/// The mistakes of the first file, with `;` behind each.
pub fn mistakes(alloc: Global, part: Part, row: &str) -> Result<String, Unanswered> {
    let sources = sources(alloc, row)?;
    let bundle = program(alloc, &sources, Form::Whole)?;
    match sources.first() {
        Some(first) => found(alloc, &bundle, part, first.text),
        None => Ok(String::new(alloc)),
    }
}

fn found(alloc: Global, bundle: &Bundle, part: Part, text: &str) -> Result<String, Unanswered> {
    let places = places(alloc, bundle, part)?;
    let mut line = String::new(alloc);
    push_found(&mut line, text, places.as_slice())?;
    Ok(line)
}

fn places(alloc: Global, bundle: &Bundle, part: Part) -> Result<Items<Span>, Unanswered> {
    let sheets = sheets_of(alloc, bundle)?;
    match sheets.as_slice() {
        [own, ..] => wrong_parts(alloc, &bundle.names, sheets.as_slice(), own, part),
        [] => Ok(Items::new(alloc)),
    }
}

fn wrong_parts(
    alloc: Global,
    names: &Names,
    all: &[Sheet],
    own: &Sheet,
    part: Part,
) -> Result<Items<Span>, Unanswered> {
    Ok(match part {
        Part::Props => unknown_props(alloc, all, own)?,
        Part::Slots => unknown_slots(alloc, all, own)?,
        Part::Binds => bad_binds(alloc, &variables(alloc, names)?, all, own)?,
    })
}

// The variable `v` alone.
fn variables(alloc: Global, names: &Names) -> Result<Distinct, Unanswered> {
    let mut variables = Distinct::new(alloc);
    if let Some(name) = names.find("v") {
        variables.add(Ref::Plain(name))?;
    }
    Ok(variables)
}
