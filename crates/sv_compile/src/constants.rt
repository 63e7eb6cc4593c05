// The constants of a file.
ghost use Rattle.std.specs.Prelude.{◌≡◌, ◌++◌, IfOk, OnOk, map, position};
ghost use Rattle.sv_compile.specs.Constants as spec;

use crate::imports::add_imported;
use std::alloc::Global;
use sv_ast::{Bundle, Decl, FileTree, NameList, Named, SourceFile, Stmt, StmtKind};
use sv_base::{Name, NoMemory};
use sv_code::Known;
use sv_list::Items;

/// A name that is declared as a constant, or imported between braces, and what it stands for.
#[derive(Clone, Copy, Debug, PartialEq, Eq)]
pub(crate) struct Given {
    pub(crate) named: Named,
    pub(crate) known: Known,
}

/// What the statements of a file declare as constants, and what they import. `NoMemory` comes where memory runs out, or of a number below 2^32
/// for a constant, or of one below 2^16 for a file.
pub(crate) fn givens(
    alloc: Global,
    bundle: &Bundle,
    stmts: &[Stmt],
) -> Result<Items<Given>, NoMemory>
    ensures { IfOk result (λ given. given ≡ spec.givens bundle.now.names bundle.now.files stmts.now) }
{
    let constants = all_constants(alloc, stmts)?;
    let mut given = numbered(alloc, constants.as_slice())?;
    for stmt in stmts {
        add_imported(alloc, &mut given, bundle, stmt)?;
    }
    Ok(given)
}

/// The constants that the statements of a file declare, in their order.
pub(crate) fn all_constants(alloc: Global, stmts: &[Stmt]) -> Result<NameList, NoMemory>
    ensures { IfOk result (λ names. names ≡ spec.all_constants stmts.now) }
{
    let mut names = NameList::new(alloc);
    for stmt in stmts {
        add_constants(&mut names, stmt)?;
    }
    Ok(names)
}

fn add_constants(names: &mut NameList, stmt: &Stmt) -> Result<(), NoMemory>
    ensures { OnOk result (names.new ≡ names.old ++ spec.constants_of stmt.now) }
{
    match stmt.kind.get() {
        StmtKind::Const { decls, .. } => add_decls(names, decls.as_slice()),
        StmtKind::Func { name, .. } => names.push(*name),
        _ => Ok(()),
    }
}

fn add_decls(names: &mut NameList, decls: &[Decl]) -> Result<(), NoMemory>
    ensures { OnOk result (names.new ≡ names.old ++ map spec.decl_name decls.now) }
{
    for decl in decls {
        names.push(decl.name)?;
    }
    Ok(())
}

// Constants with their numbers.
fn numbered(alloc: Global, names: &[Named]) -> Result<Items<Given>, NoMemory>
    ensures { IfOk result (λ given. given ≡ spec.numbered_from 0 names.now) }
{
    let mut given = Items::new(alloc);
    for (n, named) in names.iter().enumerate() {
        let known = Known::Constant(constant_number(n)?);
        given.push(Given {
            named: *named,
            known,
        })?;
    }
    Ok(given)
}

/// The number of a constant, where it is below 2^32.
pub(crate) fn constant_number(n: usize) -> Result<u32, NoMemory>
    ensures { IfOk result (λ number. number ≡ n) }
{
    match u32::try_from(n) {
        Ok(number) => Ok(number),
        Err(_) => Err(NoMemory),
    }
}

/// The number of the constant of this name that a file gives.
pub(crate) fn place_in(
    alloc: Global,
    source: &SourceFile,
    name: Name,
) -> Result<Option<usize>, NoMemory>
    ensures { IfOk result (λ place. place ≡ spec.place_in source.now.tree name) }
{
    match &source.tree {
        FileTree::Component(_) => Ok(None),
        FileTree::Module(module) => {
            let names = all_constants(alloc, module.script.stmts.as_slice())?;
            Ok(place_of(names.as_slice(), name))
        }
    }
}

fn place_of(names: &[Named], name: Name) -> Option<usize>
    ensures { result ≡ position (λ c. spec.same_name c.name name) names.now }
{
    names.iter().position(|named| named.name == name)
}
