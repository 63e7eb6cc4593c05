// The components that the tags of a file stand for.
ghost use Rattle.std.specs.Prelude.{◌≡◌, IfOk, OnOk};
ghost use Rattle.std.specs.List.{flat_map};
ghost use Rattle.sv_imports.specs.Imports as imports;
ghost use Rattle.sv_names.specs.NameMap.{with_entries};
ghost use Rattle.sv_slots.specs.Children as spec;

use std::alloc::Global;
use sv_ast::{Import, Ref, SourceFile, Stmt, StmtKind};
use sv_base::NoMemory;
use sv_imports::file_named;
use sv_names::NameMap;

/// The files that the names of a file's tags stand for, where these statements are its script: an import without braces gives its name to
/// the file that it names, if that is one of `files`. `NoMemory` comes only where memory runs out.
#[tactic(auto, using(crate::proofs::Naming::points_cons))]
pub fn children_of(alloc: Global, files: &[SourceFile], stmts: &[Stmt]) -> Result<NameMap, NoMemory>
    ensures { IfOk result (λ children. children ≡ spec.tag_files files.now stmts.now) }
{
    let mut children = NameMap::new(alloc);
    for stmt in stmts {
        add_stmt(&mut children, files, stmt)?;
    }
    Ok(children)
}

fn add_stmt(children: &mut NameMap, files: &[SourceFile], stmt: &Stmt) -> Result<(), NoMemory>
    ensures { OnOk result (children.new ≡ with_entries children.old (spec.points_of files.now stmt.now)) }
{
    match stmt.kind.get() {
        StmtKind::Import(import) => add_import(children, files, import),
        _ => Ok(()),
    }
}

fn add_import(children: &mut NameMap, files: &[SourceFile], import: &Import) -> Result<(), NoMemory>
    ensures { OnOk result (children.new ≡ with_entries children.old (spec.whole_point import.now.whole (imports.file_named files.now import.now.from))) }
{
    let Some(whole) = &import.whole else {
        return Ok(());
    };
    match file_named(files, import.from.as_str()) {
        Some(file) => children.add(Ref::Plain(whole.name), file),
        None => Ok(()),
    }
}
