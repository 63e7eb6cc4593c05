// What the cursors over tokens and over bytes answer to calls. The texts stand at the byte 10 of the file 3.
ghost use Rattle.std.specs.Prelude.{◌<◌, length};

use crate::LONGEST;
use crate::refusals::{placed, refused};
use std::alloc::{AllocError, Global};
use sv_ast::{Kind, Named, ParseError};
use sv_base::{Name, Names, NoMemory, Num, Span, Text};
use sv_lex::{Lexeme, Run, Source, Tokens, first, past};
use sv_rows::{push_part, yes_or_no};

/// What a cursor over the tokens of a text answers to calls: the calls with `, ` between, ` | `, and the text. The name `a` has the number
/// 0 before.
pub fn cursor(alloc: Global, row: &str) -> Result<String, NoMemory>
    requires { length row.now < LONGEST }
{
    let (calls, text) = row.split_once(" | ").unwrap_or((row, ""));
    let mut known = Names::empty(alloc);
    known.intern("a")?;
    by_cursor(
        alloc,
        Tokens::new(alloc, &known, 3, text.as_bytes(), 10),
        calls,
    )
}

fn by_cursor(alloc: Global, mut tokens: Tokens<'_>, calls: &str) -> Result<String, NoMemory> {
    let mut answers = String::new(alloc);
    for call in calls.split(", ") {
        let answer = told(alloc, cursor_call(alloc, &mut tokens, call))?;
        push_part(&mut answers, ", ", answer.as_str())?;
    }
    push_added(&mut answers, &tokens.into_added())?;
    Ok(answers)
}

/// The same of a cursor over the bytes of a text, where no name is known before.
pub fn source(alloc: Global, row: &str) -> Result<String, NoMemory>
    requires { length row.now < LONGEST }
{
    let (calls, text) = row.split_once(" | ").unwrap_or((row, ""));
    let known = Names::empty(alloc);
    by_source(
        alloc,
        Source::new(alloc, &known, 3, text.as_bytes(), 10),
        calls,
    )
}

fn by_source(alloc: Global, mut source: Source<'_>, calls: &str) -> Result<String, NoMemory> {
    let mut answers = String::new(alloc);
    for call in calls.split(", ") {
        let answer = told(alloc, source_call(alloc, &mut source, call))?;
        push_part(&mut answers, ", ", answer.as_str())?;
    }
    push_added(&mut answers, &source.into_added())?;
    Ok(answers)
}

// Appends how many names were added, if any were.
fn push_added(answers: &mut String, added: &Names) -> Result<(), AllocError> {
    let count = added.len();
    if count == 0 {
        return Ok(());
    }
    write!(answers, ", new names: {count}")
}

// An answer, or the refusal in its place.
fn told(alloc: Global, answer: Result<String, ParseError>) -> Result<String, NoMemory> {
    match answer {
        Ok(answer) => Ok(answer),
        Err(error) => refused(alloc, error),
    }
}

fn cursor_call(alloc: Global, tokens: &mut Tokens<'_>, call: &str) -> Result<String, ParseError> {
    match call {
        "name" => named(alloc, tokens.name()),
        "word" => named(alloc, tokens.word()),
        "store name" => named(alloc, tokens.store_name()),
        "string" => string(alloc, tokens.string()),
        "numeral" => numeral(alloc, tokens.numeral()),
        "run" => run(alloc, tokens.run()),
        "take" => Ok(bytes(alloc, tokens.take())?),
        "look past" => Ok(kind(alloc, first(past(tokens.text())))?),
        "peek" => Ok(kind(alloc, tokens.peek())?),
        "is later" => Ok(answer(alloc, yes_or_no(tokens.is_later()))?),
        "ending" => done(alloc, tokens.ending()),
        "span from 11" => Ok(place(alloc, tokens.span_from(11))?),
        _ => token_call(alloc, tokens, call),
    }
}

// A call for a token like the one with which the text of the call begins.
fn token_call(alloc: Global, tokens: &mut Tokens<'_>, call: &str) -> Result<String, ParseError> {
    if let Some(text) = call.strip_prefix("eat ") {
        return Ok(answer(alloc, yes_or_no(tokens.eat(first(text.as_bytes()))))?);
    }
    let text = call.strip_prefix("expect ").unwrap_or("");
    done(alloc, tokens.expect(first(text.as_bytes())))
}

fn source_call(alloc: Global, source: &mut Source<'_>, call: &str) -> Result<String, ParseError> {
    match call {
        "left" => Ok(number(alloc, source.left())?),
        "at" => Ok(number(alloc, source.at() as usize)?),
        "text" => Ok(bytes(alloc, source.text())?),
        "stop" => Err(source.stop(Kind::Syntax)),
        "stop at 10" => Err(source.stop_at(Kind::Syntax, 10)),
        "span from 11" => Ok(place(alloc, source.span_from(11))?),
        "name a" => name_a(alloc, source),
        "go to e" => Ok(go_to_e(alloc, source)?),
        "pass 1" => Ok(pass(alloc, source)?),
        "take" => Ok(take(alloc, source)?),
        _ => close(alloc, source, call),
    }
}

fn name_a(alloc: Global, source: &mut Source<'_>) -> Result<String, ParseError> {
    let Name(found) = source.intern("a")?;
    Ok(number(alloc, found as usize)?)
}

// Goes to the text `e` at the byte 40.
fn go_to_e(alloc: Global, source: &mut Source<'_>) -> Result<String, NoMemory> {
    source.go_to(b"e", 40);
    answer(alloc, "done")
}

// Goes on by a byte, where there is one.
fn pass(alloc: Global, source: &mut Source<'_>) -> Result<String, NoMemory> {
    if source.text().is_empty() {
        return answer(alloc, "no byte");
    }
    source.pass(1);
    answer(alloc, "done")
}

// Takes a token, and goes back to the bytes behind it.
fn take(alloc: Global, source: &mut Source<'_>) -> Result<String, NoMemory> {
    let mut tokens = source.tokens();
    let text = tokens.take();
    *source = tokens.into_source();
    bytes(alloc, text)
}

// Goes behind a token like the one with which the text of a call begins.
fn close(alloc: Global, source: &mut Source<'_>, call: &str) -> Result<String, ParseError> {
    let text = call.strip_prefix("close ").unwrap_or("");
    *source = source.tokens().close(first(text.as_bytes()))?;
    Ok(answer(alloc, "done")?)
}

fn answer(alloc: Global, word: &str) -> Result<String, NoMemory> {
    Ok(String::from_str(alloc, word)?)
}

fn done(alloc: Global, outcome: Result<(), ParseError>) -> Result<String, ParseError> {
    outcome?;
    Ok(answer(alloc, "done")?)
}

fn number(alloc: Global, number: usize) -> Result<String, NoMemory> {
    Ok(number.to_string(alloc)?)
}

fn kind(alloc: Global, lexeme: Lexeme) -> Result<String, NoMemory> {
    Ok(format!(in alloc; "{lexeme:?}")?)
}

fn place(alloc: Global, at: Span) -> Result<String, NoMemory> {
    Ok(placed(alloc, at)?)
}

// The number of a name, and where it stands.
fn named(alloc: Global, read: Result<Named, ParseError>) -> Result<String, ParseError> {
    Ok(named_told(alloc, read?)?)
}

fn named_told(alloc: Global, read: Named) -> Result<String, NoMemory> {
    let Named { name, span } = read;
    let place = placed(alloc, span)?;
    Ok(format!(in alloc; "{} at {}", name.0, place.as_str())?)
}

fn string(alloc: Global, read: Result<Text, ParseError>) -> Result<String, ParseError> {
    Ok(quoted(alloc, read?.as_str())?)
}

fn numeral(alloc: Global, read: Result<Num, ParseError>) -> Result<String, ParseError> {
    Ok(numeral_told(alloc, read?)?)
}

fn numeral_told(alloc: Global, number: Num) -> Result<String, NoMemory> {
    Ok(number.to_string(alloc)?)
}

// A run of a template, and whether a hole comes behind it.
fn run(alloc: Global, read: Result<(Run, bool), ParseError>) -> Result<String, ParseError> {
    let (run, is_hole) = read?;
    Ok(run_told(alloc, run.text.as_str(), is_hole)?)
}

fn run_told(alloc: Global, text: &str, is_hole: bool) -> Result<String, NoMemory> {
    let behind = if is_hole { "and a hole" } else { "to the end" };
    Ok(format!(in alloc; "'{text}' {behind}")?)
}

fn quoted(alloc: Global, text: &str) -> Result<String, NoMemory> {
    Ok(format!(in alloc; "'{text}'")?)
}

fn bytes(alloc: Global, text: &[u8]) -> Result<String, NoMemory> {
    let text = String::from_utf8_lossy(alloc, text)?;
    quoted(alloc, text.as_str())
}
