// The files that a file imports.
ghost use Rattle.std.specs.Prelude.{◌≡◌, IfOk, MatchOption, Some, None};
ghost use Rattle.std.specs.List.{filter_map};
ghost use Rattle.sv_load.specs.Imports as spec;

use std::alloc::Global;
use sv_ast::{FileTree, Stmt, StmtKind, name_in};
use sv_base::{NoMemory, Text};
use sv_list::Items;

/// Names of files.
pub type FileNames = Items<Text>;

/// Whether a file of this name is a module.
pub fn is_module(name: &str) -> bool
    ensures { result ≡ spec.is_module name.now }
{
    name.ends_with(".js")
}

// The file that a statement names.
fn file_of(stmt: &Stmt) -> Option<&str>
    ensures { MatchOption result (spec.file_of stmt.now ≡ None) (λ name. spec.file_of stmt.now ≡ Some name.now) }
{
    match stmt.kind.get() {
        StmtKind::Import(import) => name_in(import.from.as_str()),
        _ => None,
    }
}

// The names of the files that these statements name, in their order.
fn named(alloc: Global, stmts: &[Stmt]) -> Result<FileNames, NoMemory>
    ensures { IfOk result (λ names. names ≡ filter_map spec.file_of stmts.now) }
{
    let mut names = Items::new(alloc);
    for stmt in stmts {
        if let Some(name) = file_of(stmt) {
            names.push(Text::new(alloc, name)?)?;
        }
    }
    Ok(names)
}

/// The names of the files that a file imports, in source order.
pub fn imported(alloc: Global, tree: &FileTree) -> Result<FileNames, NoMemory>
    ensures { IfOk result (λ names. names ≡ spec.imports tree.now) }
{
    named(alloc, tree.statements())
}
