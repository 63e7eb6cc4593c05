//! Rows on watchers: what they report of the changes that they are told, and which of them are left. `sv_rows` says how rows are
//! written.
#![tactic(auto)]

mod changes;
mod tally;
mod told;

use std::alloc::Global;
use std::{io, str};
use sv_base::NoMemory;
use sv_rows::answer_rows;

// What a row is answered.
fn answer(alloc: Global, text: &[u8]) -> Result<String, NoMemory> {
    match str::from_utf8(text) {
        Ok(text) => told::told(alloc, text),
        Err(_) => Ok(String::from_str(alloc, "no text")?),
    }
}

fn main(rt: HostRuntime) -> io::Result<()> {
    let alloc = rt.alloc();
    answer_rows(&rt, |_, text| answer(alloc, text))
}
