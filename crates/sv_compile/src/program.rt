// Whole programs.
ghost use Rattle.std.specs.Prelude.{◌≡◌, ℕ, ◌≤◌, ◌<◌, Some, length, slice_get, All, IfOk};
ghost use Rattle.sv_ast.specs.declared.files.SourceFile.{SourceFile as AnySource};
ghost use Rattle.sv_base.specs.declared.limits.TheConstants.{CELL_LIMIT};
ghost use Rattle.sv_check.specs.declared.checked.CheckedComponent.{CheckedComponent as Told};
ghost use Rattle.sv_check.specs.Checked.{IsChecked, AreChecked};
ghost use Rattle.sv_code.specs.Compiled.{IsCompiled};
ghost use Rattle.sv_compile.specs.Compile as spec;
ghost use Rattle.sv_compile.specs.Modules.{AreModules};
ghost use Rattle.sv_compile.specs.Runs.{reactives};
ghost use Rattle.sv_ast.specs.Files.{statements_of};
ghost use Rattle.sv_lines.specs.Lines.{LinesAscend};
ghost use Rattle.sv_lower.specs.Does.{Makes};
ghost use Rattle.sv_within.specs.Keys.{AreAllKeysSeen};

use crate::files::{compile_component, compile_module};
use crate::modules::modules;
use std::alloc::Global;
use sv_ast::{Bundle, FileTree, LineStarts, NameList, SourceFile};
use sv_base::{NoMemory, Span};
use sv_check::{Checked, CheckedComponent};
use sv_code::{
    FileCode, Function, FunctionBody, Functions, Handlers, Locals, Program, ProgramFile,
    ProgramFiles, Tags,
};
use sv_fragments::Tables;

/// Compiles a checked program, of whose files the lines begin in order. `NoMemory` comes where memory runs out, or of a number below 2^32 for a
/// function, a tag, a handler, a constant or a statement, or of one below 2^16 for a file.
///
/// - Function 0 is `writable`. Functions and arrows follow through all files, in the order in which their bodies end; in a component those of
///   the script come first. Component tags are numbered where their content ends, and handlers in the order of the text.
/// - A name is what it stands for: what a scope between it and the top of its file declares; else a cell, a constant of the file, or what it
///   is imported as; else `String`, `Boolean`, `Math` or `console`.
/// - Module files run in the order in which a visit of the first file and its imports ends with them.
pub fn compile(alloc: Global, checked: &Checked<'_>) -> Result<Program, NoMemory>
    requires checked { AreChecked checked.now.bundle.now checked.now.components }
    requires lines { LinesAscend checked.now.bundle.now.files }
    ensures program { IfOk result (λ program. program ≡ spec.program checked.now.bundle.now checked.now.components program.modules) }
    ensures modules { IfOk result (λ program. AreModules checked.now.bundle.now.files program.modules) }
    ensures compiled { IfOk result IsCompiled }
    ensures keys { IfOk result AreAllKeysSeen }
{
    let bundle = checked.bundle;
    let mut tables = first_tables(alloc)?;
    let sources = bundle.files.as_slice();
    let files = compile_files(
        alloc,
        &mut tables,
        bundle,
        sources,
        checked.components.as_slice(),
    )?;
    let names = bundle.names.copy()?;
    let modules = modules(alloc, sources)?;
    let Tables {
        functions,
        tags,
        handlers,
    } = tables;
    Ok(Program {
        names,
        files,
        functions,
        tags,
        handlers,
        modules,
    })
}

// The tables before the first file: `writable` alone.
fn first_tables(alloc: Global) -> Result<Tables, NoMemory>
    ensures { IfOk result (λ tables. tables ≡ spec.first_tables) }
{
    let mut functions = Functions::new(alloc);
    functions.push(Function {
        span: Span {
            file: 0,
            from: 0,
            to: 0,
        },
        params: NameList::new(alloc),
        captured: Locals::new(alloc),
        declares: Locals::new(alloc),
        body: FunctionBody::Writable,
    })?;
    Ok(Tables {
        functions,
        tags: Tags::new(alloc),
        handlers: Handlers::new(alloc),
    })
}

// The code of files, with what is told of each.
fn compile_files(
    alloc: Global,
    tables: &mut Tables,
    bundle: &Bundle,
    files: &[SourceFile],
    told: &[CheckedComponent],
) -> Result<ProgramFiles, NoMemory>
    requires size { length told.now ≡ length files.now }
    requires each { (n : ℕ) (source : AnySource) (c : Told) → slice_get files.now n ≡ Some source → slice_get told.now n ≡ Some c → IsChecked source c }
    ensures { Makes result (spec.files_code bundle.now files.now told.now tables.old) tables.new }
{
    let mut made = ProgramFiles::new(alloc);
    for (n, source) in files.iter().enumerate() {
        made.push(compile_file(alloc, tables, bundle, source, &told[n])?)?;
    }
    Ok(made)
}

fn compile_file(
    alloc: Global,
    tables: &mut Tables,
    bundle: &Bundle,
    source: &SourceFile,
    told: &CheckedComponent,
) -> Result<ProgramFile, NoMemory>
    requires { IsChecked source.now told.now }
    ensures { Makes result (spec.file bundle.now source.now told.now tables.old) tables.new }
{
    let code = compile_tree(alloc, tables, bundle, &source.tree, told)?;
    Ok(ProgramFile {
        name: source.name.share()?,
        lines: LineStarts::copy_of(alloc, source.lines.as_slice())?,
        code,
    })
}

fn compile_tree(
    alloc: Global,
    tables: &mut Tables,
    bundle: &Bundle,
    tree: &FileTree,
    told: &CheckedComponent,
) -> Result<FileCode, NoMemory>
    requires few { length told.now.scopes.cells ≤ CELL_LIMIT }
    requires below { All (λ n. n < length (reactives (statements_of tree.now))) told.now.order.items }
    ensures { Makes result (spec.tree_code bundle.now tree.now told.now tables.old) tables.new }
{
    match tree {
        FileTree::Component(c) => Ok(FileCode::Component(compile_component(
            alloc, tables, bundle, c, told,
        )?)),
        FileTree::Module(m) => Ok(FileCode::Module(compile_module(
            alloc,
            tables,
            bundle,
            m.script.stmts.as_slice(),
        )?)),
    }
}
