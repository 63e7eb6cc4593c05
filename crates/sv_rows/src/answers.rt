// How answers are written.
ghost use Rattle.std.specs.Prelude.{◌≡◌, ◌++◌, OnOk, string_bytes};
ghost use Rattle.sv_rows.specs.Words as spec;

use std::alloc::Global;
use sv_base::NoMemory;

/// Appends a gap behind what an answer has so far, if it has anything.
pub fn push_gap(answer: &mut String, gap: &str) -> Result<(), NoMemory>
    ensures { OnOk result (string_bytes answer.new ≡ spec.with_gap (string_bytes answer.old) gap.now) }
{
    if answer.is_empty() {
        return Ok(());
    }
    Ok(answer.push_str(gap)?)
}

/// Appends a part of an answer, with a gap in front of it where it isn't the first.
pub fn push_part(answer: &mut String, gap: &str, part: &str) -> Result<(), NoMemory>
    ensures { OnOk result (string_bytes answer.new ≡ spec.with_gap (string_bytes answer.old) gap.now ++ part.now) }
{
    push_gap(answer, gap)?;
    Ok(answer.push_str(part)?)
}

/// `yes`, or `no` for what doesn't hold.
pub fn yes_or_no(holds: bool) -> &'static str
    ensures { result.now ≡ spec.yes_or_no holds }
{
    if holds { "yes" } else { "no" }
}

/// A text with the escapes that keep it in one line, and `nothing` for an empty one.
pub(crate) fn escaped(alloc: Global, text: &str) -> Result<String, NoMemory> {
    if text.is_empty() {
        return Ok(String::from_str(alloc, "nothing")?);
    }
    let mut line = String::new(alloc);
    for c in text.chars() {
        match c {
            '\n' => line.push_str("\\n")?,
            '\r' => line.push_str("\\r")?,
            '\t' => line.push_str("\\t")?,
            '\\' => line.push_str("\\\\")?,
            '\u{A0}' => line.push_str("\\xC2\\xA0")?,
            _ => line.push(c)?,
        }
    }
    Ok(line)
}
