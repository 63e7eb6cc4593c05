//! Rows on tests of components: selectors, the elements that match one, verdicts, and files of steps. `sv_rows` says how rows are written.
//!
//! - `selector: TEXT` is answered with the selector: of each compound the tag, `*` for none, and its parts, with ` > ` before a child and
//!   ` >> ` before what is somewhere below; or with `none`.
//! - `matches: SELECTOR | TREE` is answered with the elements that match, each as its name, its `id` and the texts below it.
//! - `count N: SELECTOR | TREE`, `text: TEXT | SELECTOR | TREE` and `attr NAME: TEXT | SELECTOR | TREE`, or `flag NAME: SELECTOR | TREE` for the
//!   empty text and `absent NAME: SELECTOR | TREE` for none, are answered with the line that is printed of the verdict and with the last line of the test.
//! - `steps: JSON` is answered with the events and checks of a file of steps, or with why there are none.
//!
//! A tree is written word by word: `name[` begins an element and `]` ends it, `@name=text` gives it an attribute and `@name` a flag, `~text` is what a
//! user typed into it, `~+` and `~-` are how a box was left, and `'text` is a text. In a text `_` stands for a space.
#![tactic(auto)]

mod checks;
mod selectors;
mod steps;
mod trees;

use std::alloc::Global;
use std::{io, str};
use sv_base::NoMemory;
use sv_rows::answer_rows;

// What a row is answered.
fn answer(alloc: Global, kind: &str, text: &[u8]) -> Result<String, NoMemory> {
    let Ok(row) = str::from_utf8(text) else {
        return Ok(String::from_str(alloc, "no text")?);
    };
    let (asked, name) = kind.split_once(' ').unwrap_or((kind, ""));
    match asked {
        "selector" => selectors::written(alloc, row),
        "matches" => selectors::matching(alloc, row),
        "count" => checks::count(alloc, name, row),
        "text" => checks::text(alloc, row),
        "attr" => checks::attribute(alloc, name, row),
        "flag" => checks::flag(alloc, name, row),
        "absent" => checks::absent(alloc, name, row),
        "steps" => steps::told(alloc, row),
        _ => Ok(String::from_str(alloc, "no such kind")?),
    }
}

fn main(rt: HostRuntime) -> io::Result<()> {
    let alloc = rt.alloc();
    answer_rows(&rt, |kind, text| answer(alloc, kind, text))
}
