// What expressions are worth.
use crate::literals::push_value;
use crate::programs::{Mounted, page_of};
use crate::unanswered::Unanswered;
use std::alloc::Global;
use sv_base::NoMemory;
use sv_ops::Fault;
use sv_value::Inst;

/// Names that may stand in an expression, each with what declares it.
const GIVEN: [(&str, &str); 8] = [
    ("seven", "const seven = 7\n"),
    ("text", "const text = 'größe 😀'\n"),
    ("list", "const list = [3, 1, 2, 1]\n"),
    ("words", "const words = ['x', 'yy', 'z']\n"),
    (
        "object",
        "const object = { a: 1, b: 'two', c: null, '5': 'five' }\n",
    ),
    (
        "people",
        "const people = [{ id: 1, k: 'a' }, { id: 2, k: 'b' }, { id: 3, k: 'a' }]\n",
    ),
    ("twice", "const twice = x => x * 2\n"),
    (
        "store",
        "import { writable } from 'svelte/store'; const store = writable(4)\n",
    ),
];

/// The value of an expression, or its fault, and its steps.
pub fn told(alloc: Global, expression: &str) -> Result<String, Unanswered> {
    let given = given(alloc, expression)?;
    let taken = steps(alloc, given.as_str())?;
    let before = format!(in alloc; "<script>{given}let it = ")?;
    let component = format!(in alloc; "{before}{expression}\n</script>")?;
    let mounted = page_of(alloc, component.as_str())?;
    told_of(alloc, &mounted, before.len(), taken)
}

// The same of a component in which so many bytes stand before the expression, and what is given takes so many steps.
fn told_of(
    alloc: Global,
    mounted: &Mounted,
    before: usize,
    given: u32,
) -> Result<String, Unanswered> {
    let mut line = String::new(alloc);
    match mounted.fault {
        Some(fault) => push_fault(&mut line, before, fault)?,
        None => push_it(&mut line, mounted)?,
    }
    let taken = mounted.steps().saturating_sub(given);
    write!(line, " | {} steps", taken.saturating_sub(1))?;
    Ok(line)
}

// What declares the names of an expression.
fn given(alloc: Global, expression: &str) -> Result<String, NoMemory> {
    let mut text = String::new(alloc);
    for (name, declaration) in GIVEN {
        if expression.contains(name) {
            text.push_str(declaration)?;
        }
    }
    Ok(text)
}

// How many steps a script takes. One without a character takes none.
fn steps(alloc: Global, script: &str) -> Result<u32, Unanswered> {
    if script.is_empty() {
        return Ok(0);
    }
    let component = format!(in alloc; "<script>{script}</script>")?;
    Ok(page_of(alloc, component.as_str())?.steps())
}

// Appends a fault with its column in the expression, which stands behind so many bytes.
fn push_fault(line: &mut String, before: usize, fault: Fault) -> Result<(), Unanswered> {
    let kind = fault.kind;
    match (fault.span.from as usize).checked_sub(before) {
        Some(at) => Ok(write!(line, "{kind} at {}", at.saturating_add(1))?),
        None => Ok(write!(line, "{kind} in what is given")?),
    }
}

// Appends the value of the one cell.
fn push_it(line: &mut String, mounted: &Mounted) -> Result<(), Unanswered> {
    let root = Inst { key: 0, number: 1 };
    match mounted.page.world.cell(root, 0) {
        Some(cell) => Ok(push_value(line, &cell.value)?),
        None => Ok(line.push_str("no value")?),
    }
}
