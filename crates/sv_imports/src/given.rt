// The names that modules give.
ghost use Rattle.std.specs.Prelude.{◌≡◌, IfOk, OnOk};
ghost use Rattle.sv_names.specs.Distinct.{firsts, with_names};
ghost use Rattle.sv_imports.specs.Given as spec;

use std::alloc::Global;
use sv_ast::{Decl, FileTree, Ref, SourceFile, Stmt, StmtKind};
use sv_base::NoMemory;
use sv_names::Distinct;

/// For each file the names that it gives.
pub(crate) fn given_names(alloc: Global, files: &[SourceFile]) -> Result<Vec<Distinct>, NoMemory>
    ensures { IfOk result (λ given. given.items ≡ spec.given_names files.now) }
{
    let mut given = Vec::new(alloc);
    for source in files {
        given.push(given_by(alloc, &source.tree)?)?;
    }
    Ok(given)
}

fn given_by(alloc: Global, tree: &FileTree) -> Result<Distinct, NoMemory>
    ensures { IfOk result (λ given. given ≡ firsts (spec.given_by tree.now)) }
{
    let mut given = Distinct::new(alloc);
    if let FileTree::Module(module) = tree {
        add_all(&mut given, module.script.stmts.as_slice())?;
    }
    Ok(given)
}

fn add_all(given: &mut Distinct, stmts: &[Stmt]) -> Result<(), NoMemory>
    ensures { OnOk result (given.new ≡ with_names given.old (spec.all_exported stmts.now)) }
{
    for stmt in stmts {
        add_exported(given, stmt)?;
    }
    Ok(())
}

fn add_exported(given: &mut Distinct, stmt: &Stmt) -> Result<(), NoMemory>
    ensures { OnOk result (given.new ≡ with_names given.old (spec.exported stmt.now)) }
{
    match stmt.kind.get() {
        StmtKind::Const {
            decls,
            exported: true,
        } => add_decls(given, decls.as_slice()),
        StmtKind::Func {
            name,
            exported: true,
            ..
        } => given.add(Ref::Plain(name.name)),
        _ => Ok(()),
    }
}

fn add_decls(given: &mut Distinct, decls: &[Decl]) -> Result<(), NoMemory>
    ensures { OnOk result (given.new ≡ with_names given.old (spec.decl_names decls.now)) }
{
    for decl in decls {
        given.add(Ref::Plain(decl.name.name))?;
    }
    Ok(())
}
