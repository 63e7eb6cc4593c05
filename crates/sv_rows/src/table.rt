// The rows of a table.
use crate::answers::escaped;
use crate::notation::opened;
use std::alloc::{AllocError, Global};
use std::io;
use std::io::{BufRead, BufReader};
use sv_base::{NoMemory, TEXT_LIMIT};

/// Prints each line of the input: a row with what `answer` gives for its kind and its text, and another line as it is.
pub fn answer_rows<R, F>(rt: &R, answer: F) -> io::Result<()>
where
    R: Input + Print + AllocGlobal,
    F: Fn(&str, &[u8]) -> Result<String, NoMemory>,
    requires { F.IsAlwaysCallable answer }
{
    let input = BufReader::new(rt.alloc(), rt.reader())?;
    for line in input.lines(rt.alloc()) {
        let line = line?;
        let shown = shown(rt.alloc(), line.as_str(), &answer).map_err(|_| AllocError)?;
        rt.println(shown)?;
    }
    Ok(())
}

// A line as it is printed.
fn shown<F>(alloc: Global, line: &str, answer: &F) -> Result<String, NoMemory>
where
    F: Fn(&str, &[u8]) -> Result<String, NoMemory>,
    requires { F.IsAlwaysCallable answer.now }
{
    let Some((kind, text)) = row_of(line) else {
        return Ok(String::from_str(alloc, line)?);
    };
    let text = opened(alloc, text)?;
    let found = answer(kind, &text)?;
    let found = escaped(alloc, found.as_str())?;
    Ok(format!(in alloc; "{line} -> {}", found.as_str())?)
}

// The kind and the text of a line that is a row.
fn row_of(line: &str) -> Option<(&str, &str)> {
    if line.is_empty() || line.starts_with('#') {
        return None;
    }
    let (kind, text) = line.split_once(':').unwrap_or((line, ""));
    Some((kind, text.strip_prefix(' ').unwrap_or(text)))
}
