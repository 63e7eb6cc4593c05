// The functions that may be pure.
ghost use Rattle.std.specs.Prelude.{◌≡◌, ◌++◌, IfOk, OnOk};
ghost use Rattle.sv_effects.specs.Functions as spec;

use crate::notes::Sign;
use crate::signs::{signs_of_arrow, signs_of_function};
use std::alloc::Global;
use sv_ast::{Bundle, Decl, ExprKind, SourceFile, Stmt, StmtKind};
use sv_base::{Name, Names, NoMemory};
use sv_list::Items;

/// A function at the top level of a file, by the number of the file, with the signs of its body.
#[derive(Drop)]
pub(crate) struct Function {
    pub(crate) file: usize,
    pub(crate) name: Name,
    pub(crate) exported: bool,
    pub(crate) signs: Items<Sign>,
}

/// The functions of all files, in the order of the text: each `function`, and each constant whose value is an arrow.
pub(crate) fn functions_of(alloc: Global, bundle: &Bundle) -> Result<Items<Function>, NoMemory>
    ensures { IfOk result (λ functions. functions ≡ spec.functions bundle.now) }
{
    let files = bundle.files.as_slice();
    let mut functions = Items::new(alloc);
    for (file, source) in files.iter().enumerate() {
        add_file(alloc, &mut functions, &bundle.names, file, source)?;
    }
    Ok(functions)
}

fn add_file(
    alloc: Global,
    functions: &mut Items<Function>,
    names: &Names,
    file: usize,
    source: &SourceFile,
) -> Result<(), NoMemory>
    ensures { OnOk result (functions.new ≡ functions.old ++ spec.file_functions names.now file source.now) }
{
    for stmt in source.tree.statements() {
        add_stmt(alloc, functions, names, file, stmt)?;
    }
    Ok(())
}

fn add_stmt(
    alloc: Global,
    functions: &mut Items<Function>,
    names: &Names,
    file: usize,
    stmt: &Stmt,
) -> Result<(), NoMemory>
    ensures { OnOk result (functions.new ≡ functions.old ++ spec.stmt_functions names.now file stmt.now) }
{
    match stmt.kind.get() {
        StmtKind::Func { name, exported, .. } => {
            let signs = signs_of_function(alloc, names, stmt)?;
            functions.push(Function {
                file,
                name: name.name,
                exported: *exported,
                signs,
            })
        }
        StmtKind::Const { decls, exported } => {
            add_decls(alloc, functions, names, file, *exported, decls.as_slice())
        }
        _ => Ok(()),
    }
}

fn add_decls(
    alloc: Global,
    functions: &mut Items<Function>,
    names: &Names,
    file: usize,
    exported: bool,
    decls: &[Decl],
) -> Result<(), NoMemory>
    ensures { OnOk result (functions.new ≡ functions.old ++ spec.decls_functions names.now file exported decls.now) }
{
    for decl in decls {
        add_decl(alloc, functions, names, file, exported, decl)?;
    }
    Ok(())
}

fn add_decl(
    alloc: Global,
    functions: &mut Items<Function>,
    names: &Names,
    file: usize,
    exported: bool,
    decl: &Decl,
) -> Result<(), NoMemory>
    ensures { OnOk result (functions.new ≡ functions.old ++ spec.decl_functions names.now file exported decl.now) }
{
    let Some(value) = &decl.first else {
        return Ok(());
    };
    match value.kind.get() {
        ExprKind::Arrow { .. } => {
            let signs = signs_of_arrow(alloc, names, value)?;
            functions.push(Function {
                file,
                name: decl.name.name,
                exported,
                signs,
            })
        }
        _ => Ok(()),
    }
}
