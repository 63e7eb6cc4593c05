// Small texts and programs, read.
ghost use Rattle.std.specs.Prelude.{◌≡◌, [], IfOk};
ghost use Rattle.sv_lines.specs.Lines.{LinesAscend};

use crate::unanswered::Unanswered;
use std::alloc::Global;
use sv_ast::{
    Bundle, Component, Expr, FileTree, Files, LineStarts, Module, Nodes, Script, SourceFile,
};
use sv_base::{Names, Text};
use sv_markup::parse_component;
use sv_script::{parse_expr, parse_module_script, parse_script};

/// No text that is read has so many bytes.
const LONGEST: usize = 10_000_000;

/// An expression that is the whole of a text.
pub fn expression(alloc: Global, names: &mut Names, text: &str) -> Result<Expr, Unanswered> {
    let bytes = text.as_bytes();
    if bytes.len() >= LONGEST {
        return Err(Unanswered::TooLong);
    }
    let (tree, end) = parse_expr(alloc, names, 0, bytes, 0)?;
    if end as usize == bytes.len() {
        Ok(tree)
    } else {
        Err(Unanswered::More)
    }
}

/// The script of a component.
pub fn script(alloc: Global, names: &mut Names, text: &str) -> Result<Script, Unanswered> {
    script_of(alloc, names, 0, text)
}

fn script_of(
    alloc: Global,
    names: &mut Names,
    file: u16,
    text: &str,
) -> Result<Script, Unanswered> {
    let bytes = text.as_bytes();
    if bytes.len() >= LONGEST {
        return Err(Unanswered::TooLong);
    }
    Ok(parse_script(alloc, names, file, bytes, 0, bytes.len() as u32)?)
}

/// A component.
pub fn component(alloc: Global, names: &mut Names, text: &str) -> Result<Component, Unanswered> {
    component_of(alloc, names, 0, text)
}

fn component_of(
    alloc: Global,
    names: &mut Names,
    file: u16,
    text: &str,
) -> Result<Component, Unanswered> {
    let bytes = text.as_bytes();
    if bytes.len() >= LONGEST {
        return Err(Unanswered::TooLong);
    }
    match parse_component(alloc, names, file, bytes) {
        Ok(tree) => Ok(tree),
        Err(error) => Err(error.into()),
    }
}

fn module_of(
    alloc: Global,
    names: &mut Names,
    file: u16,
    text: &str,
) -> Result<Module, Unanswered> {
    let bytes = text.as_bytes();
    if bytes.len() >= LONGEST {
        return Err(Unanswered::TooLong);
    }
    let script = parse_module_script(alloc, names, file, bytes)?;
    Ok(Module { file, script })
}

/// What the text of a component is.
#[derive(Clone, Copy)]
pub enum Form {
    /// Its script alone.
    Script,
    /// The whole of it.
    Whole,
}

fn tree_of(
    alloc: Global,
    names: &mut Names,
    file: u16,
    source: Source<'_>,
    form: Form,
) -> Result<FileTree, Unanswered> {
    if source.name.ends_with(".js") {
        return Ok(FileTree::Module(module_of(alloc, names, file, source.text)?));
    }
    Ok(FileTree::Component(match form {
        Form::Script => alone(alloc, file, script_of(alloc, names, file, source.text)?),
        Form::Whole => component_of(alloc, names, file, source.text)?,
    }))
}

/// The component of the file that is a script alone.
pub fn alone(alloc: Global, file: u16, script: Script) -> Component {
    Component {
        file,
        script,
        nodes: Nodes::new(alloc),
    }
}

/// A file of a row: its name and its text.
#[derive(Clone, Copy)]
pub struct Source<'a> {
    pub name: &'a str,
    pub text: &'a str,
}

/// The files of a row, each as its name, `:`, a space and its text, with ` | ` between.
pub fn sources(alloc: Global, row: &str) -> Result<Vec<Source<'_>>, Unanswered> {
    let mut sources = Vec::new(alloc);
    for file in row.split(" | ") {
        let (name, text) = file.split_once(':').unwrap_or((file, ""));
        let text = text.strip_prefix(' ').unwrap_or(text);
        sources.push(Source { name, text })?;
    }
    Ok(sources)
}

/// The program of some files, of which no line is told.
pub fn program(alloc: Global, sources: &[Source<'_>], form: Form) -> Result<Bundle, Unanswered>
    ensures { IfOk result (λ bundle. LinesAscend bundle.files) }
{
    let mut bundle = Bundle {
        names: Names::empty(alloc),
        files: Files::new(alloc),
    };
    for (file, source) in (0..64).zip(sources) {
        let read = source_file(alloc, &mut bundle.names, file, *source, form)?;
        bundle.files.push(read)?;
    }
    Ok(bundle)
}

fn source_file(
    alloc: Global,
    names: &mut Names,
    file: u16,
    source: Source<'_>,
    form: Form,
) -> Result<SourceFile, Unanswered>
    ensures { IfOk result (λ read. read.lines ≡ []) }
{
    let name = Text::new(alloc, source.name)?;
    let tree = tree_of(alloc, names, file, source, form)?;
    Ok(SourceFile {
        name,
        lines: LineStarts::new(alloc),
        tree,
    })
}
