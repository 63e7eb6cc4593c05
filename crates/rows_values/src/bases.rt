// Numbers, shared texts, names by number, and places in a text.
use std::alloc::Global;
use sv_base::{Name, Names, NoMemory, Num, TEXT_LIMIT, Text, line_col};
use sv_rows::push_part;

fn word(alloc: Global, found: Option<&str>) -> Result<String, NoMemory> {
    Ok(String::from_str(alloc, found.unwrap_or("none"))?)
}

/// A whole number as it is printed, or `none` where it is no safe integer.
pub fn number(alloc: Global, text: &str) -> Result<String, NoMemory> {
    match text.parse::<i64>().ok().and_then(Num::new) {
        Some(number) => Ok(number.to_string(alloc)?),
        None => word(alloc, None),
    }
}

/// The text of a shared copy of a text.
pub fn shared(alloc: Global, text: &str) -> Result<String, NoMemory> {
    let text = Text::new(alloc, text)?;
    Ok(String::from_str(alloc, text.share()?.as_str())?)
}

/// How want of memory is printed.
pub fn want_of_memory(alloc: Global) -> Result<String, NoMemory> {
    Ok(NoMemory.to_string(alloc)?)
}

/// The numbers that names with `,` between get as they come.
pub fn numbers_of_names(alloc: Global, list: &str) -> Result<String, NoMemory> {
    let mut names = Names::new(alloc)?;
    let mut numbers = String::new(alloc);
    for text in list.split(',') {
        let Name(number) = names.intern(text)?;
        push_part(&mut numbers, " ", number.to_string(alloc)?.as_str())?;
    }
    Ok(numbers)
}

// A table of names with `,` between, or an empty one.
fn table(alloc: Global, list: &str) -> Result<Names, NoMemory> {
    let mut names = Names::empty(alloc);
    if list.is_empty() {
        return Ok(names);
    }
    for text in list.split(',') {
        names.intern(text)?;
    }
    Ok(names)
}

/// The name of a number: the number, ` | `, and the names of the table.
pub fn name(alloc: Global, row: &str) -> Result<String, NoMemory> {
    let (number, list) = row.split_once(" | ").unwrap_or((row, ""));
    let names = table(alloc, list)?;
    word(alloc, names.text(Name(number.parse::<u32>().unwrap_or(0))))
}

/// The number of a name: the name, ` | `, and the names of the table.
pub fn number_of_name(alloc: Global, row: &str) -> Result<String, NoMemory> {
    let (text, list) = row.split_once(" | ").unwrap_or((row, ""));
    match table(alloc, list)?.find(text) {
        Some(Name(number)) => Ok(number.to_string(alloc)?),
        None => word(alloc, None),
    }
}

/// How many names a table has once one without names is appended.
pub fn appended(alloc: Global, list: &str) -> Result<String, NoMemory> {
    let mut names = table(alloc, list)?;
    names.append(&Names::empty(alloc))?;
    Ok(names.len().to_string(alloc)?)
}

/// The line and the column of a place: the place, ` | `, and the text.
pub fn line_and_column(alloc: Global, row: &str) -> Result<String, NoMemory> {
    let (at, text) = row.split_once(" | ").unwrap_or((row, ""));
    let at = at.parse::<u32>().unwrap_or(0);
    if at as usize > text.len() || text.len() >= TEXT_LIMIT {
        return word(alloc, None);
    }
    let (line, column) = line_col(text.as_bytes(), at);
    Ok(format!(in alloc; "{line}:{column}")?)
}
