// The steps from one list of keys to another. A key is a whole number, or a text behind `'`, and `none` stands for no keys.
use std::alloc::{AllocError, Global};
use sv_base::{NoMemory, Text};
use sv_keyed::{KeyRefusal, KeyStep, moves};
use sv_rows::push_part;
use sv_value::Key;

/// The steps: the old keys, ` | `, and the new ones; or the key that stands twice.
pub fn steps(alloc: Global, row: &str) -> Result<String, NoMemory> {
    let (old, new) = row.split_once(" | ").unwrap_or((row, ""));
    let (old, new) = (keys(alloc, old)?, keys(alloc, new)?);
    match moves(alloc, &old, &new) {
        Ok(steps) => told(alloc, &steps),
        Err(KeyRefusal::Duplicate(key)) => duplicate(alloc, &key),
        Err(KeyRefusal::NoMemory) => Err(NoMemory),
    }
}

fn keys(alloc: Global, words: &str) -> Result<Vec<Key>, NoMemory> {
    let mut keys = Vec::new(alloc);
    for word in words.split_whitespace() {
        if word != "none" {
            keys.push(key(alloc, word)?)?;
        }
    }
    Ok(keys)
}

fn key(alloc: Global, word: &str) -> Result<Key, NoMemory> {
    match word.strip_prefix('\'') {
        Some(text) => Ok(Key::Text(Text::new(alloc, text)?)),
        None => Ok(Key::Num(word.parse::<i64>().unwrap_or(0))),
    }
}

fn duplicate(alloc: Global, key: &Key) -> Result<String, NoMemory> {
    match key {
        Key::Num(number) => Ok(format!(in alloc; "twice {number}")?),
        Key::Text(text) => Ok(format!(in alloc; "twice '{}", text.as_str())?),
        Key::Bool(holds) => Ok(format!(in alloc; "twice {holds}")?),
    }
}

fn told(alloc: Global, steps: &[KeyStep]) -> Result<String, NoMemory> {
    let mut told = String::new(alloc);
    for step in steps {
        push_part(&mut told, ", ", step_told(alloc, *step)?.as_str())?;
    }
    Ok(told)
}

fn step_told(alloc: Global, step: KeyStep) -> Result<String, AllocError> {
    match step {
        KeyStep::Drop { old } => format!(in alloc; "drop {old}"),
        KeyStep::Make { new, before } => placed(alloc, "make", new, before),
        KeyStep::Shift { new, before } => placed(alloc, "shift", new, before),
    }
}

fn placed(alloc: Global, word: &str, new: u32, before: Option<u32>) -> Result<String, AllocError> {
    match before {
        Some(before) => format!(in alloc; "{word} {new} before {before}"),
        None => format!(in alloc; "{word} {new} at the end"),
    }
}
