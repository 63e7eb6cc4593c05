// Cycles of imports.
ghost use Rattle.std.specs.Prelude.{◌≡◌, ◌<◌, ◌^◌, IfOk, OnOk, length};
ghost use Rattle.sv_graph.specs.Links.{IsWhole};
ghost use Rattle.sv_imports.specs.Imports as imports;
ghost use Rattle.sv_imports.specs.Cycles as spec;
ghost use Rattle.sv_imports.specs.Table.{leads_in, IsTable};

use crate::files::target;
use std::alloc::Global;
use sv_ast::{Bundle, SourceFile, Stmt};
use sv_base::{NoMemory, Span};
use sv_graph::reached;
use sv_list::Items;

/// For each file of a bundle the places of its imports that are part of a cycle: of a file from which imports lead to this one, itself
/// included. The place is that of the whole statement. `NoMemory` comes where memory runs out, or of a number below 2^32 for a file.
///
/// The rule is this project's own: ECMA-262 lets modules import one another, and Svelte components contain themselves.
pub fn import_cycles(alloc: Global, bundle: &Bundle) -> Result<Items<Items<Span>>, NoMemory>
    ensures { IfOk result (λ places. spec.AreCycles bundle.now.files places) }
{
    let files = bundle.files.as_slice();
    if files.len() > u32::MAX as usize {
        return Err(NoMemory);
    }
    let links = import_links(alloc, files)?;
    let table = leads_table(alloc, &links)?;
    find_cycles(alloc, files, &table)
}

/// For each file those that it imports, in the order of its statements. `NoMemory` comes only where memory runs out.
pub fn import_links(alloc: Global, files: &[SourceFile]) -> Result<Vec<Items<u32>>, NoMemory>
    requires { length files.now < 2 ^ 32 }
    ensures { IfOk result (λ links. links.items ≡ imports.imports files.now) }
{
    let mut links = Vec::new(alloc);
    for source in files {
        links.push(targets(alloc, files, source)?)?;
    }
    Ok(links)
}

fn targets(alloc: Global, files: &[SourceFile], source: &SourceFile) -> Result<Items<u32>, NoMemory>
    requires { length files.now < 2 ^ 32 }
    ensures { IfOk result (λ targets. targets ≡ imports.targets files.now source.now) }
{
    let mut targets = Items::new(alloc);
    for stmt in source.tree.statements() {
        if let Some(file) = target(files, stmt) {
            targets.push(file as u32)?;
        }
    }
    Ok(targets)
}

// For each file which files it leads to, itself included.
fn leads_table(alloc: Global, links: &[Items<u32>]) -> Result<Vec<Vec<bool>>, NoMemory>
    requires whole { IsWhole links.now }
    requires few { length links.now < 2 ^ 32 }
    ensures { IfOk result (λ table. IsTable links.now (length links.now) table.items) }
{
    let mut table = Vec::new(alloc);
    for start in 0..links.len() {
        let row = reached(alloc, links, &[start as u32])?;
        table.push(row)?;
    }
    Ok(table)
}

fn leads(table: &[Vec<bool>], from: usize, to: usize) -> bool
    ensures { result ≡ leads_in table.now from to }
{
    match table.get(from) {
        Some(row) => match row.get(to) {
            Some(is_reached) => *is_reached,
            None => false,
        },
        None => false,
    }
}

fn find_cycles(
    alloc: Global,
    files: &[SourceFile],
    table: &[Vec<bool>],
) -> Result<Items<Items<Span>>, NoMemory>
    ensures { IfOk result (λ places. places ≡ spec.cycles_from (leads_in table.now) files.now 0 files.now) }
{
    let mut places = Items::new(alloc);
    for (file, source) in files.iter().enumerate() {
        places.push(find_cycles_in(alloc, files, table, file, source)?)?;
    }
    Ok(places)
}

fn find_cycles_in(
    alloc: Global,
    files: &[SourceFile],
    table: &[Vec<bool>],
    file: usize,
    source: &SourceFile,
) -> Result<Items<Span>, NoMemory>
    ensures { IfOk result (λ places. places ≡ spec.cycles_in (leads_in table.now) files.now file source.now) }
{
    let mut places = Items::new(alloc);
    for stmt in source.tree.statements() {
        if closes(files, table, file, stmt) {
            places.push(stmt.span)?;
        }
    }
    Ok(places)
}

fn closes(files: &[SourceFile], table: &[Vec<bool>], file: usize, stmt: &Stmt) -> bool
    ensures { result ≡ spec.closes (leads_in table.now) files.now file stmt.now }
{
    match target(files, stmt) {
        Some(imported) => leads(table, imported, file),
        None => false,
    }
}
