//! Rows on streams of changes. `sv_rows` says how rows are written.
//!
//! - `read: BYTES` is answered with the items that a stream of these bytes tells, each behind its offset, and with how it stands.
//! - `bytes: BYTES` is answered with the same, where each byte is a piece.
//! - `spell: WORDS` is answered with the bytes of the spelling of an item, in hexadecimal digits.
//! - `follow: BYTES` is answered with the page at each turn, up to the first change that doesn't fit.
//! - `mirror: BYTES` is answered with all that is printed of a stream, and the fault that is answered.
//! - `fronts: BYTES` is answered with the same of each front of the bytes, behind its length, where it isn't that of the front before.
//! - `broken: BYTES` is answered with the same where eight bytes are written at a time, and the third write fails.
#![tactic(auto)]

mod mirrors;
mod pages;
mod spelling;
mod streams;
mod words;

use std::alloc::Global;
use std::{io, str};
use sv_base::NoMemory;
use sv_rows::answer_rows;

// What a row is answered.
fn answer(alloc: Global, kind: &str, bytes: &[u8]) -> Result<String, NoMemory> {
    match kind {
        "read" => streams::told(alloc, bytes),
        "bytes" => streams::told_by_bytes(alloc, bytes),
        "spell" => spelling::spelled(alloc, str::from_utf8(bytes).unwrap_or("")),
        "follow" => pages::followed(alloc, bytes),
        "mirror" => mirrors::mirrored(alloc, bytes),
        "fronts" => mirrors::fronts(alloc, bytes),
        "broken" => mirrors::broken(alloc, bytes),
        _ => Ok(String::from_str(alloc, "no such kind")?),
    }
}

fn main(rt: HostRuntime) -> io::Result<()> {
    let alloc = rt.alloc();
    answer_rows(&rt, |kind, bytes| answer(alloc, kind, bytes))
}
