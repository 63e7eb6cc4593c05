//! Rows on what a page is brought to: which changes are told where a page that shows one thing is to show another, and the page then.
//! `sv_rows` says how rows are written.
#![tactic(auto)]

mod pages;
mod shapes;
mod steps;
mod told;
mod trees;

use std::alloc::Global;
use std::{io, str};
use sv_base::NoMemory;
use sv_rows::answer_rows;

// What a row is answered.
fn answer(alloc: Global, kind: &str, text: &[u8]) -> Result<String, NoMemory> {
    let Ok(text) = str::from_utf8(text) else {
        return Ok(String::from_str(alloc, "no text")?);
    };
    match kind {
        "page" => pages::page(alloc, text),
        "followed" => steps::changes(alloc, text),
        "followed page" => steps::page(alloc, text),
        "followed numbers" => steps::numbers(alloc, text),
        "followed reports" => steps::reports(alloc, text),
        _ => pages::changes(alloc, text),
    }
}

fn main(rt: HostRuntime) -> io::Result<()> {
    let alloc = rt.alloc();
    answer_rows(&rt, |kind, text| answer(alloc, kind, text))
}
