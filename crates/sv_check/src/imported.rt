// The local names of what a file imports from a module of the language.
ghost use Rattle.std.specs.Prelude.{◌≡◌, map, IfOk, OnOk};
ghost use Rattle.sv_names.specs.Distinct.{with_names};
ghost use Rattle.sv_check.specs.Imported as spec;

use std::alloc::Global;
use sv_ast::{Import, ImportName, Ref, Stmt, StmtKind};
use sv_base::{Names, NoMemory};
use sv_names::Distinct;

/// The local names of what a file with some statements imports from the module `from` by one of some words.
pub(crate) fn imported_names(
    alloc: Global,
    names: &Names,
    from: &str,
    words: &[&str],
    stmts: &[Stmt],
) -> Result<Distinct, NoMemory>
    ensures { IfOk result (λ list. list ≡ spec.imported_names names.now from.now (map (λ word. word.now) words.now) stmts.now) }
{
    let mut list = Distinct::new(alloc);
    for stmt in stmts {
        add_stmt(&mut list, names, from, words, stmt)?;
    }
    Ok(list)
}

fn add_stmt(
    list: &mut Distinct,
    names: &Names,
    from: &str,
    words: &[&str],
    stmt: &Stmt,
) -> Result<(), NoMemory>
    ensures { OnOk result (list.new ≡ with_names list.old (spec.stmt_names names.now from.now (map (λ word. word.now) words.now) stmt.now)) }
{
    match stmt.kind.get() {
        StmtKind::Import(import) => add_import(list, names, from, words, import),
        _ => Ok(()),
    }
}

fn add_import(
    list: &mut Distinct,
    names: &Names,
    from: &str,
    words: &[&str],
    import: &Import,
) -> Result<(), NoMemory>
    ensures { OnOk result (list.new ≡ with_names list.old (spec.import_names names.now from.now (map (λ word. word.now) words.now) import.now)) }
{
    if import.from.as_str() == from {
        return add_specs(list, names, words, import.names.as_slice());
    }
    Ok(())
}

fn add_specs(
    list: &mut Distinct,
    names: &Names,
    words: &[&str],
    specs: &[ImportName],
) -> Result<(), NoMemory>
    ensures { OnOk result (list.new ≡ with_names list.old (spec.local_names names.now (map (λ word. word.now) words.now) specs.now)) }
{
    for given in specs {
        if names.is_one_of(given.given.name, words) {
            list.add(Ref::Plain(given.local.name))?;
        }
    }
    Ok(())
}
