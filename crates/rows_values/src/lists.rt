// Lists, boxes, and what a page shares.
use std::alloc::Global;
use sv_base::{NoMemory, Text};
use sv_list::{Boxed, Items};
use sv_rows::{push_part, yes_or_no};
use sv_tokens::{Attr, Typed};

/// How many items a list of words has, and the items.
pub fn items(alloc: Global, words: &str) -> Result<String, NoMemory> {
    let mut items = Items::new(alloc);
    for word in words.split_whitespace() {
        items.push(Text::new(alloc, word)?)?;
    }
    if items.is_empty() {
        return Ok(String::from_str(alloc, "empty")?);
    }
    listed(alloc, &items)
}

fn listed(alloc: Global, items: &Items<Text>) -> Result<String, NoMemory> {
    let mut list = format!(in alloc; "{}:", items.len())?;
    for item in items.as_slice() {
        push_part(&mut list, " ", item.as_str())?;
    }
    Ok(list)
}

/// What a box holds, and what is taken out of it.
pub fn boxed(alloc: Global, text: &str) -> Result<String, NoMemory> {
    let boxed = Boxed::new(alloc, Text::new(alloc, text)?)?;
    let mut told = String::from_str(alloc, boxed.get().as_str())?;
    push_part(&mut told, " ", boxed.into_inner().as_str())?;
    Ok(told)
}

/// Whether an attribute's shared copy is the same.
pub fn shared_attribute(alloc: Global, text: &str) -> Result<String, NoMemory> {
    let attr = Attr::Text(Text::new(alloc, text)?);
    let is_same = attr.share()?.is(&attr);
    Ok(String::from_str(alloc, yes_or_no(is_same))?)
}

/// Whether the shared copy of what was typed is the same.
pub fn shared_typing(alloc: Global, text: &str) -> Result<String, NoMemory> {
    let typed = Typed::Text(Text::new(alloc, text)?);
    let is_same = typed.share()?.is(&typed);
    Ok(String::from_str(alloc, yes_or_no(is_same))?)
}
