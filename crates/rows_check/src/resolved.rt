// What names stand for in the code of small programs.
ghost use Rattle.sv_check.specs.Checked.{AreChecked};
ghost use Rattle.sv_lines.specs.Lines.{LinesAscend};

use crate::mistakes::refused;
use crate::read::{Form, program, sources};
use crate::spelled::{push_body, push_part, push_stmts, push_target};
use crate::unanswered::Unanswered;
use crate::words::text_of;
use std::alloc::{AllocError, Global};
use sv_base::{Name, Names};
use sv_check::{Checked, check};
use sv_code::{
    CodeStmt, Component, FileCode, Frag, FragAttr, FragValue, FragValuePart, Function, Handler,
    Program,
};
use sv_compile::compile;

/// What of a program is told.
#[derive(Clone, Copy)]
pub enum Told {
    /// Its functions but `writable`: what each takes along and declares, and what names stand for in it.
    Functions,
    /// What names stand for in the expressions of the markup of the first file, of its handlers and of the attributes of its tags.
    Parts,
    /// What names stand for in the scripts of its files.
    Scripts,
    /// The stores of the first file, and the modules in the order in which they run.
    Stores,
    /// The reactive statements of the first file in the order in which they run, by their numbers.
    Runs,
}

/// What a compiled program is told as.
pub fn of_program(alloc: Global, told: Told, row: &str) -> Result<String, Unanswered> {
    let sources = sources(alloc, row)?;
    let bundle = program(alloc, &sources, Form::Whole)?;
    match check(alloc, &bundle) {
        Ok(checked) => compiled(alloc, told, &checked),
        Err(error) => refused(alloc, error),
    }
}

fn compiled(alloc: Global, told: Told, checked: &Checked<'_>) -> Result<String, Unanswered>
    requires checked { AreChecked checked.now.bundle.now checked.now.components }
    requires lines { LinesAscend checked.now.bundle.now.files }
{
    let program = compile(alloc, checked)?;
    Ok(told_of(alloc, told, &program)?)
}

fn told_of(alloc: Global, told: Told, program: &Program) -> Result<String, AllocError> {
    let mut line = String::new(alloc);
    match told {
        Told::Functions => push_functions(&mut line, program)?,
        Told::Parts => push_parts(&mut line, program)?,
        Told::Scripts => push_scripts(&mut line, program)?,
        Told::Stores => push_stores(&mut line, program)?,
        Told::Runs => push_runs(&mut line, program)?,
    }
    Ok(line)
}

fn push_functions(line: &mut String, program: &Program) -> Result<(), AllocError> {
    for (number, function) in program.functions.as_slice().iter().enumerate() {
        if number > 0 {
            write!(line, "{}{number}", gap(number > 1))?;
            push_function(line, &program.names, function)?;
        }
    }
    Ok(())
}

fn gap(is_inside: bool) -> &'static str {
    if is_inside { "; " } else { "" }
}

fn push_function(line: &mut String, names: &Names, function: &Function) -> Result<(), AllocError> {
    push_list(line, names, " takes", function.captured.as_slice())?;
    push_list(line, names, " declares", function.declares.as_slice())?;
    line.push_str(":")?;
    push_body(line, names, &function.body)
}

// A word and names, where there are any.
fn push_list(
    line: &mut String,
    names: &Names,
    word: &str,
    list: &[Name],
) -> Result<(), AllocError> {
    if !list.is_empty() {
        line.push_str(word)?;
    }
    for name in list {
        write!(line, " {}", text_of(names, *name))?;
    }
    Ok(())
}

fn first_component(program: &Program) -> Option<&Component> {
    match &program.files.as_slice().first()?.code {
        FileCode::Component(component) => Some(component),
        FileCode::Module(_) => None,
    }
}

fn push_parts(line: &mut String, program: &Program) -> Result<(), AllocError> {
    if let Some(component) = first_component(program) {
        push_frags(line, program, component.markup.as_slice())?;
    }
    for tag in program.tags.as_slice() {
        line.push_str(" tag")?;
        push_attrs(line, program, tag.attrs.as_slice())?;
        push_frags(line, program, tag.content.as_slice())?;
    }
    Ok(())
}

#[cycle(frags)]
fn push_frags(line: &mut String, program: &Program, frags: &[Frag]) -> Result<(), AllocError> {
    for frag in frags {
        push_frag(line, program, frag)?;
    }
    Ok(())
}

#[cycle(frags)]
fn push_frag(line: &mut String, program: &Program, frag: &Frag) -> Result<(), AllocError> {
    match frag {
        Frag::Show(part) => push_part(line, &program.names, part),
        Frag::Element {
            attrs,
            children,
            ..
        } => {
            push_attrs(line, program, attrs.as_slice())?;
            push_frags(line, program, children.as_slice())
        }
        Frag::Named { node, .. } => push_frag(line, program, node.get()),
        Frag::Each { list, body, .. } => {
            push_part(line, &program.names, list)?;
            push_frags(line, program, body.as_slice())
        }
        Frag::Key { value, body } => {
            push_part(line, &program.names, value)?;
            push_frags(line, program, body.as_slice())
        }
        Frag::Tag { tag, .. } => write!(line, " (tag {tag})"),
        Frag::Text(_) | Frag::Slot { .. } | Frag::If { .. } => Ok(()),
    }
}

fn push_attrs(line: &mut String, program: &Program, attrs: &[FragAttr]) -> Result<(), AllocError> {
    for attr in attrs {
        match attr {
            FragAttr::Plain { value, .. } => push_value(line, program, value)?,
            FragAttr::On { handler, .. } => push_handler(line, program, *handler as usize)?,
            FragAttr::Bind { target, .. } => push_part(line, &program.names, target)?,
            FragAttr::Class { test, .. } => push_part(line, &program.names, test)?,
        }
    }
    Ok(())
}

fn push_value(line: &mut String, program: &Program, value: &FragValue) -> Result<(), AllocError> {
    let FragValue::Parts(parts) = value else {
        return Ok(());
    };
    for part in parts.as_slice() {
        if let FragValuePart::Show(part) = part {
            push_part(line, &program.names, part)?;
        }
    }
    Ok(())
}

fn push_handler(line: &mut String, program: &Program, number: usize) -> Result<(), AllocError> {
    line.push_str(" on")?;
    match program.handlers.as_slice().get(number) {
        Some(
            Handler {
                listener: Some(part),
                ..
            },
        ) => push_part(line, &program.names, part),
        _ => line.push_str(" passed"),
    }
}

fn push_scripts(line: &mut String, program: &Program) -> Result<(), AllocError> {
    for (number, file) in program.files.as_slice().iter().enumerate() {
        if number > 0 {
            line.push_str(";")?;
        }
        push_stmts(line, &program.names, script_of(&file.code))?;
    }
    Ok(())
}

fn script_of(code: &FileCode) -> &[CodeStmt] {
    match code {
        FileCode::Component(component) => component.script.as_slice(),
        FileCode::Module(module) => module.script.as_slice(),
    }
}

fn push_stores(line: &mut String, program: &Program) -> Result<(), AllocError> {
    if let Some(component) = first_component(program) {
        for store in component.stores.as_slice() {
            write!(line, "cell {} of", store.cell)?;
            push_target(line, &program.names, store.holder)?;
            write!(line, " at {} of {}; ", store.span.from, store.span.file)?;
        }
    }
    line.push_str("modules")?;
    for number in program.modules.as_slice() {
        write!(line, " {number}")?;
    }
    Ok(())
}

fn push_runs(line: &mut String, program: &Program) -> Result<(), AllocError> {
    if let Some(component) = first_component(program) {
        for run in component.runs.as_slice() {
            write!(line, " {}", run.number)?;
        }
    }
    Ok(())
}
