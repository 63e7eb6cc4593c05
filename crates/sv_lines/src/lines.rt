// Where lines begin, and the line and the column of a place.
ghost use Rattle.std.specs.Prelude.{◌≡◌, ◌<◌, ◌≤◌, ℕ, List, length, true, IfOk};
ghost use Rattle.sv_lines.specs.Lines as spec;
ghost use Rattle.sv_lines.specs.Lines.{IsPlace};

use std::alloc::Global;
use sv_ast::LineStarts;
use sv_base::{NoMemory, TEXT_LIMIT};
use sv_list::Items;

/// The places at which the lines of a text begin.
pub fn line_starts(alloc: Global, bytes: &[u8]) -> Result<LineStarts, NoMemory>
    requires { length bytes.now < TEXT_LIMIT }
    ensures lines { IfOk result (λ lines. lines ≡ spec.line_starts bytes.now) }
    ensures ascending { IfOk result (λ lines. spec.ascends lines ≡ true) }
{
    let mut lines = Items::new(alloc);
    lines.push(0)?;
    let mut at = 0;
    for byte in bytes {
        at += 1;
        if *byte == b'\n' {
            lines.push(at)?;
        }
    }
    Ok(lines)
}

// The last of some places, or the first place of all where there is none.
fn last_start(starts: &[u32]) -> u32
    ensures { result ≡ spec.last_start starts.now }
{
    starts.last().copied().unwrap_or(0)
}

/// The line of the place `at` and its column in bytes, both from 1, in a file whose lines begin at these places. LF alone
/// ends a line. Behind the end of the file the columns of its last line go on. The work is the logarithm of the number of
/// lines.
pub fn place_of(lines: &LineStarts, at: u32) -> (usize, usize)
    requires { spec.ascends lines.now ≡ true }
    ensures line { result.0 ≡ spec.line_in lines.now at }
    ensures column { result.1 ≡ spec.column_in lines.now at }
    ensures in_text { (bytes : List ℕ) → lines.now ≡ spec.line_starts bytes → at ≤ length bytes → IsPlace bytes at result }
{
    let starts = lines.as_slice();
    let line = starts.partition_point(|start| *start <= at);
    let start = last_start(&starts[..line]);
    (line, (at - start) as usize + 1)
}
