// The order in which statements run, and points that are visited.
ghost use Rattle.std.specs.Prelude.{◌↔◌, ◌<◌, All, IsTrue};

use crate::unanswered::Unanswered;
use crate::words::ref_of;
use std::alloc::Global;
use sv_ast::RefList;
use sv_base::Names;
use sv_graph::{Visited, reached, unlinked, visit};
use sv_order::{OrderError, Reads, order};
use sv_rows::{push_part, yes_or_no};

/// The order of statements with `; ` between, each as `reads` and the names that it reads, and `sets` and those that it assigns; or
/// a cycle.
pub fn of_statements(alloc: Global, row: &str) -> Result<String, Unanswered> {
    let mut names = Names::empty(alloc);
    let mut statements = Vec::new(alloc);
    if !row.is_empty() {
        for text in row.split("; ") {
            statements.push(statement(alloc, &mut names, text)?)?;
        }
    }
    told(alloc, order(alloc, &statements))
}

fn statement(alloc: Global, names: &mut Names, text: &str) -> Result<Reads, Unanswered> {
    let (reads, sets) = text.split_once("sets").unwrap_or((text, ""));
    Ok(Reads {
        reads: refs(alloc, names, reads.strip_prefix("reads").unwrap_or(""))?,
        sets: refs(alloc, names, sets)?,
    })
}

fn refs(alloc: Global, names: &mut Names, words: &str) -> Result<RefList, Unanswered> {
    let mut refs = RefList::new(alloc);
    for word in words.split_whitespace() {
        refs.push(ref_of(names, word)?)?;
    }
    Ok(refs)
}

fn told(alloc: Global, order: Result<Vec<u32>, OrderError>) -> Result<String, Unanswered> {
    match order {
        Ok(order) => numbers(alloc, "", &order),
        Err(OrderError::Cycle(cycle)) => numbers(alloc, "cycle", &cycle),
        Err(OrderError::NoMemory) => Err(Unanswered::NoMemory),
    }
}

// Numbers behind a word.
fn numbers(alloc: Global, word: &str, list: &[u32]) -> Result<String, Unanswered> {
    let mut line = String::from_str(alloc, word)?;
    for number in list {
        push_part(&mut line, " ", number.to_string(alloc)?.as_str())?;
    }
    Ok(line)
}

/// The order in which so many points without links are visited.
pub fn of_points(alloc: Global, row: &str) -> Result<String, Unanswered> {
    let count = row.parse::<u32>().unwrap_or(0);
    let links = unlinked(alloc, count as usize)?;
    match visit(alloc, &links, count)? {
        Visited::Order(points) => numbers(alloc, "", &points),
        Visited::Cycle(points) => numbers(alloc, "cycle", &points),
    }
}

/// Which of so many points without links are reached: their number, ` from `, and where the paths begin.
pub fn reached_from(alloc: Global, row: &str) -> Result<String, Unanswered> {
    let (count, starts) = row.split_once(" from ").unwrap_or((row, ""));
    let mut points = Vec::new(alloc);
    for word in starts.split_whitespace() {
        points.push(word.parse::<u32>().unwrap_or(0))?;
    }
    reached_among(alloc, count.parse::<usize>().unwrap_or(0), &points)
}

fn reached_among(alloc: Global, count: usize, starts: &[u32]) -> Result<String, Unanswered> {
    if !are_below(starts, count) {
        return Ok(String::from_str(alloc, "no such point")?);
    }
    let links = unlinked(alloc, count)?;
    let mut line = String::new(alloc);
    for is_reached in &reached(alloc, &links, starts)? {
        push_part(&mut line, " ", yes_or_no(*is_reached))?;
    }
    Ok(line)
}

fn are_below(points: &[u32], count: usize) -> bool
    ensures { IsTrue result ↔ All (λ p. p < count) points.now }
{
    points.iter().all(|point| (*point as usize) < count)
}
