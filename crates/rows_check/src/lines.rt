// Where lines begin, the places of a text by its lines, and white space between pieces of markup.
use crate::unanswered::Unanswered;
use std::alloc::{AllocError, Global};
use sv_base::{TEXT_LIMIT, Text};
use sv_lines::{line_starts, place_of};
use sv_rows::{push_gap, push_part};
use sv_white::{Piece, kept};

/// Where the lines of a text begin.
pub fn starts(alloc: Global, text: &str) -> Result<String, Unanswered> {
    if text.len() >= TEXT_LIMIT {
        return Err(Unanswered::TooLong);
    }
    let mut line = String::new(alloc);
    for start in line_starts(alloc, text.as_bytes())?.as_slice() {
        push_part(&mut line, " ", start.to_string(alloc)?.as_str())?;
    }
    Ok(line)
}

/// The line and the column of each place of a text, as its lines tell.
pub fn places(alloc: Global, text: &str) -> Result<String, Unanswered> {
    if text.len() >= TEXT_LIMIT {
        return Err(Unanswered::TooLong);
    }
    let lines = line_starts(alloc, text.as_bytes())?;
    let mut told = String::new(alloc);
    for at in 0..text.len() as u32 + 1 {
        let (line, column) = place_of(&lines, at);
        push_gap(&mut told, " ")?;
        write!(told, "{line}:{column}")?;
    }
    Ok(told)
}

/// What is kept of pieces with ` | ` between: numbers in `<>` for parts of their own, numbers in `[]` for other nodes, and texts in quotes.
pub fn pieces(alloc: Global, strips: bool, row: &str) -> Result<String, Unanswered> {
    let mut pieces = Vec::new(alloc);
    for word in row.split(" | ") {
        pieces.push(piece(alloc, word)?)?;
    }
    told(alloc, &kept(alloc, &pieces, strips)?)
}

fn piece(alloc: Global, word: &str) -> Result<Piece<u32>, Unanswered> {
    if let Some(number) = inside(word, '<', '>') {
        return Ok(Piece::Apart(number.parse::<u32>().unwrap_or(0)));
    }
    if let Some(number) = inside(word, '[', ']') {
        return Ok(Piece::Other(number.parse::<u32>().unwrap_or(0)));
    }
    Ok(Piece::Words(Text::new(alloc, inside(word, '\'', '\'').unwrap_or(word))?))
}

fn inside(word: &str, first: char, last: char) -> Option<&str> {
    word.strip_prefix(first)?.strip_suffix(last)
}

fn told(alloc: Global, pieces: &[Piece<u32>]) -> Result<String, Unanswered> {
    let mut line = String::new(alloc);
    for piece in pieces {
        push_gap(&mut line, " | ")?;
        push_piece(&mut line, piece)?;
    }
    Ok(line)
}

fn push_piece(line: &mut String, piece: &Piece<u32>) -> Result<(), AllocError> {
    match piece {
        Piece::Words(text) => write!(line, "'{}'", text.as_str()),
        Piece::Apart(number) => write!(line, "<{number}>"),
        Piece::Other(number) => write!(line, "[{number}]"),
    }
}
