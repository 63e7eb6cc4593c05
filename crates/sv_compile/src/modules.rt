// The order in which module files run.
ghost use Rattle.std.specs.Prelude.{◌≡◌, ◌≤◌, IfOk, length, filter};
ghost use Rattle.sv_compile.specs.Modules as spec;

use crate::imports::file_number;
use std::alloc::Global;
use sv_ast::SourceFile;
use sv_base::NoMemory;
use sv_code::ModuleList;
use sv_graph::{Visited, visit};
use sv_imports::import_links;

/// Module files in the order in which they run: each behind those that it imports, in the order in which a visit of the first file and its
/// imports ends with them. `NoMemory` comes where memory runs out, or of a number below 2^16 for a file.
pub(crate) fn modules(alloc: Global, files: &[SourceFile]) -> Result<ModuleList, NoMemory>
    ensures { IfOk result (λ modules. spec.AreModules files.now modules) }
{
    if files.len() > u16::MAX as usize {
        return Err(NoMemory);
    }
    let links = import_links(alloc, files)?;
    let visited = visit(alloc, &links, starts(files))?;
    modules_in(alloc, files, &visited)
}

fn starts(files: &[SourceFile]) -> u32
    ensures count { result ≡ spec.starts files.now }
    ensures within { result ≤ length files.now }
{
    if files.is_empty() { 0 } else { 1 }
}

fn modules_in(
    alloc: Global,
    files: &[SourceFile],
    visited: &Visited,
) -> Result<ModuleList, NoMemory>
    ensures { IfOk result (λ modules. modules ≡ spec.modules_in files.now visited.now) }
{
    match visited {
        Visited::Order(order) => modules_among(alloc, files, order),
        Visited::Cycle(_) => Ok(ModuleList::new(alloc)),
    }
}

fn modules_among(alloc: Global, files: &[SourceFile], order: &[u32]) -> Result<ModuleList, NoMemory>
    ensures { IfOk result (λ modules. modules ≡ filter (spec.is_module_at files.now) order.now) }
{
    let mut modules = ModuleList::new(alloc);
    for n in order {
        if is_module_at(files, *n as usize) {
            modules.push(file_number(*n as usize)?)?;
        }
    }
    Ok(modules)
}

fn is_module_at(files: &[SourceFile], n: usize) -> bool
    ensures { result ≡ spec.is_module_at files.now n }
{
    match files.get(n) {
        Some(source) => source.tree.is_module(),
        None => false,
    }
}
