// A change, in words: a node that is made has its serial number, its parent, the sibling that it stands before, and `<name` or `=text`.
use std::alloc::Global;
use sv_base::{NoMemory, Text};
use sv_tokens::{Attr, Change, Typed, What};

/// What the words say: `make 1 0 0 <p`, `make 2 1 0 =a`, `text 2 b`, `attr 1 0 id=x`, `attr 1 1 hidden`, `drop 1 0`, `typed 1 =x`, `typed 1 on`,
/// `typed 1 off`, `typed 1 none`, `move 1 0` and `remove 1`.
pub fn change(alloc: Global, words: &str) -> Result<Change, NoMemory> {
    let (kind, rest) = words.split_once(' ').unwrap_or((words, ""));
    let (serial, rest) = number(rest);
    match kind {
        "make" => make(alloc, serial, rest),
        "text" => Ok(Change::SetText {
            serial,
            text: Text::new(alloc, rest)?,
        }),
        "attr" => attribute(alloc, serial, rest),
        "drop" => Ok(Change::DropAttr {
            serial,
            slot: u16::try_from(number(rest).0).unwrap_or(0),
        }),
        "typed" => Ok(Change::SetTyped {
            serial,
            typed: typed(alloc, rest)?,
        }),
        "move" => Ok(Change::Move {
            serial,
            before: number(rest).0,
        }),
        _ => Ok(Change::Remove { serial }),
    }
}

fn make(alloc: Global, serial: u64, words: &str) -> Result<Change, NoMemory> {
    let (parent, rest) = number(words);
    let (before, rest) = number(rest);
    let what = match rest.strip_prefix('<') {
        Some(name) => What::Element(Text::new(alloc, name)?),
        None => What::Text(Text::new(alloc, rest.trim_start_matches('='))?),
    };
    Ok(Change::Make {
        serial,
        parent,
        before,
        what,
    })
}

fn attribute(alloc: Global, serial: u64, words: &str) -> Result<Change, NoMemory> {
    let (slot, rest) = number(words);
    let (name, attr) = match rest.split_once('=') {
        Some((name, text)) => (name, Attr::Text(Text::new(alloc, text)?)),
        None => (rest, Attr::Flag),
    };
    Ok(Change::SetAttr {
        serial,
        slot: u16::try_from(slot).unwrap_or(0),
        name: Text::new(alloc, name)?,
        attr,
    })
}

fn typed(alloc: Global, words: &str) -> Result<Option<Typed>, NoMemory> {
    match words.strip_prefix('=') {
        Some(text) => Ok(Some(Typed::Text(Text::new(alloc, text)?))),
        None if words == "none" => Ok(None),
        None => Ok(Some(Typed::Checked(words == "on"))),
    }
}

// The number at the front of the words, and those behind it.
fn number(words: &str) -> (u64, &str) {
    let (first, rest) = words.split_once(' ').unwrap_or((words, ""));
    (first.parse::<u64>().unwrap_or(0), rest)
}
