//! Rows on whole programs: words and files, how a run of `svp` over them ends, and what it writes; whether each example and its test print what
//! its folder says; what programs load to; and what shelves and sinks answer. `sv_rows` says how rows are written. Files stand in a row as `NAME: TEXT`,
//! with ` | ` between; `failing reads: 2`, `failing writes: 2` and `bytes a write: 3` among them say how the shelf and the sink go.
#![tactic(auto)]

mod examples;
mod given;
mod loads;
mod runs;
mod shelves;

use std::{io, str};
use sv_base::NoMemory;
use sv_rows::answer_rows;

// What a row is answered. The word that its kind begins with says what is asked.
fn answer(rt: &HostRuntime, kind: &str, text: &[u8]) -> Result<String, NoMemory> {
    let alloc = rt.alloc();
    let (asked, of) = kind.split_once(' ').unwrap_or((kind, ""));
    match asked {
        "example" => examples::printed(rt, of, str::from_utf8(text).unwrap_or("?")),
        "tested" => examples::tested(rt, of, str::from_utf8(text).unwrap_or("?")),
        "svp" => runs::whole(alloc, of, text),
        "end" => runs::end(alloc, of.strip_prefix("of svp ").unwrap_or(of), text),
        "files" => loads::files(alloc, of.strip_prefix("from ").unwrap_or(of), text),
        "count" => loads::count(alloc, of.strip_prefix("of files from ").unwrap_or(of), text),
        "names" => loads::names(alloc, of.strip_prefix("from ").unwrap_or(of), text),
        "reads" => shelves::reads(alloc, text),
        "writes" => shelves::writes(alloc, text),
        "folder" => shelves::folder(rt, str::from_utf8(text).unwrap_or("?")),
        "output" => shelves::output(rt, text),
        _ => Ok(String::from_str(alloc, "no such kind")?),
    }
}

fn main(rt: HostRuntime) -> io::Result<()> {
    answer_rows(&rt, |kind, text| answer(&rt, kind, text))
}
