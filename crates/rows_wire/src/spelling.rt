// The spelling of a change that is said in words: `make 1 0 0 <p`, `make 2 1 0 =a`, `text 2 b`, `attr 1 0 id=x`, `attr 1 1 hidden`,
// `drop 1 0`, `typed 1 =x`, `typed 1 on`, `typed 1 off`, `typed 1 none`, `move 1 0` and `remove 1`.
ghost use Rattle.std.specs.Prelude.{◌≤◌, length, IfOk};
ghost use Rattle.sv_wire.specs.Spelling.{IsShort, IsShortText};

use std::alloc::Global;
use sv_base::{NoMemory, Text};
use sv_rows::push_part;
use sv_tokens::{Attr, Change, Typed, What};
use sv_wire::{Item, LONGEST_TEXT, put};

/// The bytes of the spelling, in hexadecimal digits.
pub fn spelled(alloc: Global, words: &str) -> Result<String, NoMemory> {
    let change = change(alloc, words)?;
    let mut own = Vec::new(alloc);
    put(&Item::Change(change), &mut own)?;
    let mut all = String::new(alloc);
    for byte in &own {
        push_part(&mut all, " ", format!(in alloc; "{byte:02x}")?.as_str())?;
    }
    Ok(all)
}

// What the words say.
fn change(alloc: Global, words: &str) -> Result<Change, NoMemory>
    ensures { IfOk result IsShort }
{
    let (kind, rest) = words.split_once(' ').unwrap_or((words, ""));
    let (serial, rest) = number(rest);
    match kind {
        "make" => make(alloc, serial, rest),
        "text" => Ok(Change::SetText {
            serial,
            text: text(alloc, rest)?,
        }),
        "attr" => attribute(alloc, serial, rest),
        "drop" => Ok(Change::DropAttr {
            serial,
            slot: slot(rest).0,
        }),
        "typed" => typed(alloc, serial, rest),
        "move" => Ok(Change::Move {
            serial,
            before: number(rest).0,
        }),
        _ => Ok(Change::Remove { serial }),
    }
}

fn make(alloc: Global, serial: u64, words: &str) -> Result<Change, NoMemory>
    ensures { IfOk result IsShort }
{
    let (parent, rest) = number(words);
    let (before, rest) = number(rest);
    let what = match rest.strip_prefix('<') {
        Some(name) => What::Element(text(alloc, name)?),
        None => What::Text(text(alloc, rest.trim_start_matches('='))?),
    };
    Ok(Change::Make {
        serial,
        parent,
        before,
        what,
    })
}

fn attribute(alloc: Global, serial: u64, words: &str) -> Result<Change, NoMemory>
    ensures { IfOk result IsShort }
{
    let (slot, rest) = slot(words);
    let (name, attr) = match rest.split_once('=') {
        Some((name, value)) => (name, Attr::Text(text(alloc, value)?)),
        None => (rest, Attr::Flag),
    };
    Ok(Change::SetAttr {
        serial,
        slot,
        name: text(alloc, name)?,
        attr,
    })
}

fn typed(alloc: Global, serial: u64, words: &str) -> Result<Change, NoMemory>
    ensures { IfOk result IsShort }
{
    let typed = match words.strip_prefix('=') {
        Some(words) => Some(Typed::Text(text(alloc, words)?)),
        None if words == "none" => None,
        None => Some(Typed::Checked(words == "on")),
    };
    Ok(Change::SetTyped { serial, typed })
}

// A text that is no longer than the limit: no other is in a row.
fn text(alloc: Global, words: &str) -> Result<Text, NoMemory>
    ensures { IfOk result IsShortText }
{
    if words.len() > LONGEST_TEXT {
        return Err(NoMemory);
    }
    Text::new(alloc, words)
}

fn slot(words: &str) -> (u16, &str) {
    let (slot, rest) = number(words);
    (u16::try_from(slot).unwrap_or(0), rest)
}

// The number at the front of the words, and those behind it.
fn number(words: &str) -> (u64, &str) {
    let (first, rest) = words.split_once(' ').unwrap_or((words, ""));
    (first.parse::<u64>().unwrap_or(0), rest)
}
