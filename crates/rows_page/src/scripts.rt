// What scripts leave.
use crate::literals::push_value;
use crate::programs::{Mounted, page_of};
use crate::unanswered::Unanswered;
use std::alloc::Global;
use sv_ast::Ref;
use sv_base::{NoMemory, TEXT_LIMIT, Text, line_col};
use sv_code::{FileCode, Program};
use sv_ops::Fault;
use sv_rows::push_gap;
use sv_value::Inst;

const OPENING: &str = "<script>";

/// What a script logs, its fault, its cells, and its steps.
pub fn told(alloc: Global, script: &str) -> Result<String, Unanswered> {
    let component = format!(in alloc; "{OPENING}{script}</script>")?;
    let mounted = page_of(alloc, component.as_str())?;
    Ok(told_of(alloc, &mounted, script)?)
}

fn told_of(alloc: Global, mounted: &Mounted, script: &str) -> Result<String, NoMemory> {
    let mut line = String::new(alloc);
    push_log(&mut line, mounted.page.world.turn.log())?;
    if let Some(fault) = mounted.fault {
        push_fault(&mut line, script.as_bytes(), fault)?;
    }
    push_cells(&mut line, mounted)?;
    push_gap(&mut line, " | ")?;
    write!(line, "{} steps", mounted.steps())?;
    Ok(line)
}

fn push_log(line: &mut String, log: &[Text]) -> Result<(), NoMemory> {
    for text in log {
        push_gap(line, " | ")?;
        write!(line, "log {}", text.as_str())?;
    }
    Ok(())
}

fn push_fault(line: &mut String, script: &[u8], fault: Fault) -> Result<(), NoMemory> {
    push_gap(line, " | ")?;
    let at = (fault.span.from as usize).saturating_sub(OPENING.len());
    if script.len() >= TEXT_LIMIT || at > script.len() {
        return Ok(write!(line, "{}", fault.kind)?);
    }
    let (row, column) = line_col(script, at as u32);
    Ok(write!(line, "{} at {row}:{column}", fault.kind)?)
}

fn push_cells(line: &mut String, mounted: &Mounted) -> Result<(), NoMemory> {
    let Some(root) = mounted.program.files.as_slice().last() else {
        return Ok(());
    };
    let FileCode::Component(component) = &root.code else {
        return Ok(());
    };
    let mut number = 0u8;
    for name in component.cells.as_slice() {
        push_gap(line, " | ")?;
        push_name(line, &mounted.program, *name)?;
        push_cell(line, mounted, number)?;
        number = number.saturating_add(1);
    }
    Ok(())
}

fn push_name(line: &mut String, program: &Program, name: Ref) -> Result<(), NoMemory> {
    let (sign, name) = match name {
        Ref::Plain(name) => ("", name),
        Ref::Store(name) => ("$", name),
    };
    let text = program.names.text(name).unwrap_or("$view");
    Ok(write!(line, "{sign}{text}")?)
}

// Appends what a cell holds, if it was declared.
fn push_cell(line: &mut String, mounted: &Mounted, number: u8) -> Result<(), NoMemory> {
    let root = Inst { key: 0, number: 1 };
    match mounted.page.world.cell(root, number) {
        Some(cell) => {
            line.push_str(" = ")?;
            Ok(push_value(line, &cell.value)?)
        }
        None => Ok(line.push_str(" isn't there")?),
    }
}
