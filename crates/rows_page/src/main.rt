//! Rows on what runs: what expressions are worth, what scripts leave, and pages, turn by turn. `sv_rows` says how rows are written.
//!
//! - `value: EXPRESSION` is answered with the value as the language writes it, or with the fault and its column in the expression, and
//!   with the steps that were taken. The names that stand in it are those of `GIVEN` in `values.rt`.
//! - `script: TEXT` is answered with the lines that the script of a component logs, its fault, if any, with line and column, what its
//!   cells hold in the end, and the steps that it took.
//! - `page: FILES` is answered with what `svp run App.svelte` writes, and `page --log: FILES` with what it writes with these flags. Files stand
//!   in the row as `NAME: TEXT`, with ` | ` between, and behind them perhaps `> click b, input q some text, change c true`: events with
//!   the element's `id`, and with the text, the check or the key that they carry.
//! - `drawn: COMPONENT` is answered with the page of the component, once it is mounted, as patches recorded it, and behind it with the page that
//!   evaluations of the present states give, where that is another one.
#![tactic(auto)]

mod drawn;
mod events;
mod literals;
mod pages;
mod programs;
mod scripts;
mod unanswered;
mod values;

use std::alloc::Global;
use std::{io, str};
use sv_base::NoMemory;
use sv_rows::answer_rows;
use unanswered::Unanswered;

// What a row is answered.
fn answer(alloc: Global, kind: &str, text: &[u8]) -> Result<String, NoMemory> {
    match found(alloc, kind, text) {
        Ok(answer) => Ok(answer),
        Err(Unanswered::NoMemory) => Err(NoMemory),
        Err(other) => Ok(other.to_string(alloc)?),
    }
}

fn found(alloc: Global, kind: &str, text: &[u8]) -> Result<String, Unanswered> {
    let Ok(row) = str::from_utf8(text) else {
        return Err(Unanswered::NoText);
    };
    let (asked, flags) = kind.split_once(' ').unwrap_or((kind, ""));
    match asked {
        "value" => values::told(alloc, row),
        "script" => scripts::told(alloc, row),
        "drawn" => drawn::told(alloc, row),
        "page" => Ok(pages::turns(alloc, flags, row)?),
        _ => Err(Unanswered::Kind),
    }
}

fn main(rt: HostRuntime) -> io::Result<()> {
    let alloc = rt.alloc();
    answer_rows(&rt, |kind, text| answer(alloc, kind, text))
}
