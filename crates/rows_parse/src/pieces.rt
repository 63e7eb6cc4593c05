// The pieces of markup that enclose no nodes. The texts stand at the byte 100 of the file 3.
ghost use Rattle.std.specs.Prelude.{◌<◌, length};

use crate::LONGEST;
use crate::refusals::{placed, refused};
use std::alloc::Global;
use sv_ast::{ParseError, Stmts};
use sv_base::{Names, NoMemory, Text};
use sv_lex::Source;
use sv_tags::{Filling, Hole, Setting, braces, comment, script, style, tag_end, tag_of, text};

/// A text that stands in a place, as far as it goes, behind the number of bytes that are left.
pub fn text_in(alloc: Global, setting: Setting, row: &[u8]) -> Result<String, NoMemory>
    requires { length row.now < LONGEST }
{
    let known = Names::empty(alloc);
    let mut source = Source::new(alloc, &known, 3, row, 100);
    let read = text(alloc, &mut source, setting);
    told_text(alloc, read, source.left())
}

fn told_text(
    alloc: Global,
    read: Result<Text, ParseError>,
    left: usize,
) -> Result<String, NoMemory> {
    match read {
        Ok(text) => Ok(format!(in alloc; "{left} {}", text.as_str())?),
        Err(error) => refused(alloc, error),
    }
}

/// Where braces stand that come first, and what is behind them: the number of constructs that may still be opened, ` | `, and the
/// text.
pub fn braces_with_room(alloc: Global, row: &str) -> Result<String, NoMemory>
    requires { length row.now < LONGEST }
{
    let (room, text) = row.split_once(" | ").unwrap_or(("", row));
    if text.is_empty() {
        return Ok(String::from_str(alloc, "no braces")?);
    }
    let known = Names::empty(alloc);
    let mut source = Source::new(alloc, &known, 3, text.as_bytes(), 100);
    let room = room.parse::<usize>().unwrap_or(0);
    let read = braces(alloc, &mut source, Filling::Value, room);
    told_braces(alloc, read, source.text())
}

fn told_braces(
    alloc: Global,
    read: Result<Hole, ParseError>,
    rest: &[u8],
) -> Result<String, NoMemory> {
    match read {
        Ok(hole) => placed_before(alloc, &hole, rest),
        Err(error) => refused(alloc, error),
    }
}

fn placed_before(alloc: Global, hole: &Hole, rest: &[u8]) -> Result<String, NoMemory> {
    let mut line = placed(alloc, hole.span)?;
    line.push_str(" ")?;
    line.push_str(String::from_utf8_lossy(alloc, rest)?.as_str())?;
    Ok(line)
}

/// How many bytes are left behind the comment that comes first.
pub fn comment_in(alloc: Global, row: &[u8]) -> Result<String, NoMemory>
    requires { length row.now < LONGEST }
{
    if row.len() < 4 {
        return Ok(String::from_str(alloc, "no comment")?);
    }
    let known = Names::empty(alloc);
    let mut source = Source::new(alloc, &known, 3, row, 100);
    let read = comment(&mut source);
    told_left(alloc, read, source.left())
}

/// How many bytes are left behind the style that comes first.
pub fn style_in(alloc: Global, row: &[u8]) -> Result<String, NoMemory>
    requires { length row.now < LONGEST }
{
    if row.len() < 6 {
        return Ok(String::from_str(alloc, "no style")?);
    }
    let known = Names::empty(alloc);
    let mut source = Source::new(alloc, &known, 3, row, 100);
    let read = style(&mut source);
    told_left(alloc, read, source.left())
}

/// How many bytes are left behind the end of a tag.
pub fn tag_end_in(alloc: Global, row: &[u8]) -> Result<String, NoMemory>
    requires { length row.now < LONGEST }
{
    let known = Names::empty(alloc);
    let mut source = Source::new(alloc, &known, 3, row, 100);
    let read = tag_end(&mut source);
    told_left(alloc, read, source.left())
}

fn told_left(alloc: Global, read: Result<(), ParseError>, left: usize) -> Result<String, NoMemory> {
    match read {
        Ok(()) => Ok(left.to_string(alloc)?),
        Err(error) => refused(alloc, error),
    }
}

/// How many bytes are left behind the script that comes first, and how many statements it has.
pub fn script_in(alloc: Global, row: &[u8]) -> Result<String, NoMemory>
    requires { length row.now < LONGEST }
{
    if row.len() < 7 {
        return Ok(String::from_str(alloc, "no script")?);
    }
    let known = Names::empty(alloc);
    let mut source = Source::new(alloc, &known, 3, row, 100);
    let read = script(alloc, &mut source);
    told_stmts(alloc, read, source.left())
}

fn told_stmts(
    alloc: Global,
    read: Result<Stmts, ParseError>,
    left: usize,
) -> Result<String, NoMemory> {
    match read {
        Ok(stmts) => Ok(format!(in alloc; "{left}, statements: {}", stmts.len())?),
        Err(error) => refused(alloc, error),
    }
}

/// What a tag of this name is of.
pub fn tag_named(alloc: Global, name: &[u8]) -> Result<String, NoMemory> {
    Ok(format!(in alloc; "{:?}", tag_of(name))?)
}
