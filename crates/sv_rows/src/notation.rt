// How texts are written in rows.
ghost use Rattle.std.specs.Prelude.{◌≤◌, length};

use std::alloc::Global;
use sv_base::NoMemory;

/// The bytes that the text of a row stands for.
pub(crate) fn opened(alloc: Global, text: &str) -> Result<Vec<u8>, NoMemory> {
    let text = repeated(alloc, text)?;
    unescaped(alloc, text.as_bytes())
}

// A text with its repetitions written out.
fn repeated(alloc: Global, text: &str) -> Result<String, NoMemory> {
    let mut whole = String::new(alloc);
    for part in text.split("\\[") {
        match part.split_once("\\]") {
            Some((repeat, behind)) => {
                push_repeat(alloc, &mut whole, repeat)?;
                whole.push_str(behind)?;
            }
            None => whole.push_str(part)?,
        }
    }
    Ok(whole)
}

// Appends what `N times TEXT` stands for.
fn push_repeat(alloc: Global, whole: &mut String, repeat: &str) -> Result<(), NoMemory> {
    let (count, text) = repeat.split_once(" times ").unwrap_or(("1", repeat));
    let count = count.parse::<u32>().unwrap_or(1);
    if text.contains("\\#") || text.contains("\\+") {
        return push_turns(alloc, whole, text, count);
    }
    Ok(whole.push_str(text.repeat(alloc, count as usize)?.as_str())?)
}

// Appends a text so many times, each time with the number of the turn in place of `\#` and the next number in place of `\+`.
fn push_turns(alloc: Global, whole: &mut String, text: &str, count: u32) -> Result<(), NoMemory> {
    for turn in 1..=count {
        let number = turn.to_string(alloc)?;
        let next = turn.saturating_add(1).to_string(alloc)?;
        let text = text.replace(alloc, "\\#", number.as_str())?;
        let text = text.as_str().replace(alloc, "\\+", next.as_str())?;
        whole.push_str(text.as_str())?;
    }
    Ok(())
}

// A text with its escapes read.
fn unescaped(alloc: Global, text: &[u8]) -> Result<Vec<u8>, NoMemory> {
    let mut bytes = Vec::new(alloc);
    let mut rest = text;
    while let Some(at) = rest.iter().position(|byte| *byte == b'\\') {
        bytes.extend_from_slice(&rest[..at])?;
        let (byte, len) = escape(&rest[at..]);
        bytes.push(byte)?;
        rest = &rest[at + len..];
    }
    bytes.extend_from_slice(rest)?;
    Ok(bytes)
}

// The byte that the escape at the front stands for, and with how many bytes it is written.
fn escape(text: &[u8]) -> (u8, usize)
    requires { 1 ≤ length text.now }
    ensures some { 1 ≤ result.1 }
    ensures within { result.1 ≤ length text.now }
{
    match text {
        [_, b'x', high, low, ..] => (digit(*high) << 4 | digit(*low), 4),
        [_, sign, ..] => (meant(*sign), 2),
        _ => (b'\\', 1),
    }
}

// What a sign behind a backslash stands for.
fn meant(sign: u8) -> u8 {
    match sign {
        b'n' => b'\n',
        b'r' => b'\r',
        b't' => b'\t',
        b's' => b' ',
        _ => sign,
    }
}

// The value of a hexadecimal digit, and 0 for another sign.
fn digit(sign: u8) -> u8 {
    match sign {
        b'0'..=b'9' => sign - b'0',
        b'A'..=b'F' => sign - b'A' + 10,
        _ => 0,
    }
}
