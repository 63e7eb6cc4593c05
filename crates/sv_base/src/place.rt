// Lines and columns.
ghost use Rattle.std.specs.Prelude.{◌≡◌, ◌≤◌, ◌<◌, length};
ghost use Rattle.sv_base.specs.Place.{line_of, column_of, last_line};

use crate::limits::TEXT_LIMIT;

// How many bytes of the text its last line has.
fn last_line_len(text: &[u8]) -> usize
    ensures value { result ≡ length (last_line text.now) }
    ensures within { result ≤ length text.now }
{
    let mut len = 0;
    for b in text {
        len = if *b == b'\n' { 0 } else { len + 1 };
    }
    len
}

/// The line of the place `at` and its column in bytes, both from 1. LF alone ends a line.
pub fn line_col(bytes: &[u8], at: u32) -> (u32, u32)
    requires within { at ≤ length bytes.now }
    requires short { length bytes.now < TEXT_LIMIT }
    ensures line { result.0 ≡ line_of bytes.now at }
    ensures column { result.1 ≡ column_of bytes.now at }
{
    let before = &bytes[..at as usize];
    let lines = before.iter().filter(|b| **b == b'\n').count();
    (lines as u32 + 1, last_line_len(before) as u32 + 1)
}
