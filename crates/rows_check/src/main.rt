//! Rows on the checks and the compiler: small texts and programs, and their names, scopes, cells, mistakes, orders, code and what they look
//! at. `sv_rows` says how rows are written. The files of a program stand in one row as `NAME: TEXT`, with ` | ` between.
#![tactic(auto)]

mod checks;
mod codes;
mod imports;
mod impure;
mod lines;
mod looks;
mod mistakes;
mod names;
mod orders;
mod purity;
mod read;
mod resolved;
mod scopes;
mod sites;
mod slots;
mod spelled;
mod unanswered;
mod words;

use read::Form;
use resolved::Told;
use slots::Part;
use std::alloc::Global;
use std::{io, str};
use sv_base::NoMemory;
use sv_rows::answer_rows;
use unanswered::Unanswered;

// What a row is answered.
fn answer(alloc: Global, kind: &str, text: &[u8]) -> Result<String, NoMemory> {
    match found(alloc, kind, text) {
        Ok(answer) => Ok(answer),
        Err(Unanswered::NoMemory) => Err(NoMemory),
        Err(other) => Ok(other.to_string(alloc)?),
    }
}

fn found(alloc: Global, kind: &str, text: &[u8]) -> Result<String, Unanswered> {
    let Ok(row) = str::from_utf8(text) else {
        return Err(Unanswered::NoText);
    };
    match kind {
        "free names" => names::free(alloc, row),
        "names read" => names::read(alloc, row),
        "names assigned" => names::assigned(alloc, row),
        "set of names" => names::set(alloc, row),
        "is pure with f" => purity::is_pure_with(alloc, "f", row),
        "is pure with g" => purity::is_pure_with(alloc, "g", row),
        "is pure beside String" => purity::is_pure_beside_string(alloc, row),
        "first impure place" => purity::first_place(alloc, row),
        "first impure place inside" => purity::first_hidden(alloc, row),
        "scopes of script" => scopes::of_script(alloc, row),
        "scopes" => scopes::of_component(alloc, row),
        "declared names" => scopes::declared(alloc, row),
        "places of names" => scopes::places(alloc, row),
        "local names" => scopes::local_names(alloc, row),
        "mistake in script" => mistakes::of_script(alloc, row),
        "mistake" => mistakes::of_component(alloc, row),
        "is clean module" => mistakes::is_clean_module(alloc, row),
        "cells" => mistakes::cells(alloc, row),
        _ => found_beyond(alloc, kind, row),
    }
}

// What a row is answered that asks for more than names.
fn found_beyond(alloc: Global, kind: &str, row: &str) -> Result<String, Unanswered> {
    match kind {
        "order" => orders::of_statements(alloc, row),
        "visits of points" => orders::of_points(alloc, row),
        "reached points" => orders::reached_from(alloc, row),
        "pure functions" => imports::pure(alloc, row),
        "cycles of imports" => imports::cycles(alloc, row),
        "unknown imports" => imports::unknown(alloc, row),
        "sites" => sites::sites(alloc, row),
        "unknown props" => slots::mistakes(alloc, Part::Props, row),
        "unknown slots" => slots::mistakes(alloc, Part::Slots, row),
        "bad binds" => slots::mistakes(alloc, Part::Binds, row),
        "impure" => impure::beside_f(alloc, row),
        "impure beside what is built in" => impure::beside_built_in(alloc, row),
        "check of scripts" => checks::first(alloc, Form::Script, row),
        "check" => checks::first(alloc, Form::Whole, row),
        "code" => codes::of_expression(alloc, row),
        "code of script" => codes::of_script(alloc, row),
        "names look at" => looks::of_names(alloc, row),
        "content looks at" => looks::of_content(alloc, row),
        "resolved functions" => resolved::of_program(alloc, Told::Functions, row),
        "resolved parts" => resolved::of_program(alloc, Told::Parts, row),
        "resolved scripts" => resolved::of_program(alloc, Told::Scripts, row),
        "stores and modules" => resolved::of_program(alloc, Told::Stores, row),
        "order of runs" => resolved::of_program(alloc, Told::Runs, row),
        "line starts" => lines::starts(alloc, row),
        "places" => lines::places(alloc, row),
        "kept" => lines::pieces(alloc, false, row),
        "stripped" => lines::pieces(alloc, true, row),
        _ => Err(Unanswered::Kind),
    }
}

fn main(rt: HostRuntime) -> io::Result<()> {
    let alloc = rt.alloc();
    answer_rows(&rt, |kind, text| answer(alloc, kind, text))
}
