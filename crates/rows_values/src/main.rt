//! Rows on what is at the floor: numbers, texts and names, values of scripts, the steps from one list of keys to another, derived stores, worlds, and pages,
//! what is told of their changes and what they print. `sv_rows` says how rows are written.
#![tactic(auto)]

mod bases;
mod changes;
mod derived;
mod keys;
mod lists;
mod literals;
mod pages;
mod prints;
mod scenes;
mod turns;
mod values;
mod views;

use std::alloc::Global;
use std::{io, str};
use sv_base::NoMemory;
use sv_rows::answer_rows;

// What a row is answered.
fn answer(alloc: Global, kind: &str, text: &[u8]) -> Result<String, NoMemory> {
    let Ok(text) = str::from_utf8(text) else {
        return Ok(String::from_str(alloc, "no text")?);
    };
    match kind {
        "number" => bases::number(alloc, text),
        "shared text" => bases::shared(alloc, text),
        "want of memory" => bases::want_of_memory(alloc),
        "numbers of names" => bases::numbers_of_names(alloc, text),
        "name of" => bases::name(alloc, text),
        "number of" => bases::number_of_name(alloc, text),
        "no names appended to" => bases::appended(alloc, text),
        "line and column" => bases::line_and_column(alloc, text),
        "items" => lists::items(alloc, text),
        "box" => lists::boxed(alloc, text),
        "shared attribute" => lists::shared_attribute(alloc, text),
        "shared typing" => lists::shared_typing(alloc, text),
        "same" | "differs" => values::two(alloc, kind, text),
        "field" => values::field(alloc, text),
        "steps" => keys::steps(alloc, text),
        "graph" => derived::graph(alloc, text),
        "scene" => scenes::told(alloc, text),
        "text set" => changes::text_set(alloc, text),
        "twice" => changes::twice(alloc, text),
        "moves" => changes::moves(alloc, text),
        "removal" => changes::removal(alloc, text),
        "found by identifier" => changes::found_by_id(alloc, text),
        "page" => prints::nodes(alloc, text),
        "input" => prints::input(alloc, text),
        "numbered" => prints::numbered(alloc, text),
        _ => values::one(alloc, kind, text),
    }
}

fn main(rt: HostRuntime) -> io::Result<()> {
    let alloc = rt.alloc();
    answer_rows(&rt, |kind, text| answer(alloc, kind, text))
}
