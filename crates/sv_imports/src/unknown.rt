// Names that are imported and not given.
ghost use Rattle.std.specs.Prelude.{◌≡◌, ◌++◌, map, IfOk, OnOk};
ghost use Rattle.sv_imports.specs.Unknown as spec;

use crate::given::given_names;
use crate::language::{is_life_function, is_store_function};
use crate::origin::{Origin, origin_of};
use std::alloc::Global;
use sv_ast::{Bundle, Import, ImportName, Ref, SourceFile, Stmt, StmtKind};
use sv_base::{Name, Names, NoMemory, Span};
use sv_list::Items;
use sv_names::Distinct;

/// For each file of a bundle the places of the names that it imports between braces and that aren't given: in `given as local` that of
/// `given`. A module gives what it declares by `export const` and `export function` (ECMA-262, 16.2.3). `svelte` gives `onMount`,
/// `beforeUpdate`, `afterUpdate`, `onDestroy`, `setContext`, `getContext` and `createEventDispatcher`, and `svelte/store` gives `writable` and
/// `derived`. A component, and a file that isn't there, give nothing. `NoMemory` comes only where memory runs out.
pub fn unknown_imports(alloc: Global, bundle: &Bundle) -> Result<Items<Items<Span>>, NoMemory>
    ensures { IfOk result (λ places. places ≡ spec.unknown_imports bundle.now) }
{
    let files = bundle.files.as_slice();
    let given = given_names(alloc, files)?;
    find_in_files(alloc, &bundle.names, files, &given)
}

fn find_in_files(
    alloc: Global,
    names: &Names,
    files: &[SourceFile],
    given: &[Distinct],
) -> Result<Items<Items<Span>>, NoMemory>
    ensures { IfOk result (λ places. places ≡ map (spec.unknown_in names.now files.now given.now) files.now) }
{
    let mut places = Items::new(alloc);
    for source in files {
        places.push(find_in_file(alloc, names, files, given, source)?)?;
    }
    Ok(places)
}

fn find_in_file(
    alloc: Global,
    names: &Names,
    files: &[SourceFile],
    given: &[Distinct],
    source: &SourceFile,
) -> Result<Items<Span>, NoMemory>
    ensures { IfOk result (λ places. places ≡ spec.unknown_in names.now files.now given.now source.now) }
{
    let mut places = Items::new(alloc);
    for stmt in source.tree.statements() {
        find_in_stmt(&mut places, names, files, given, stmt)?;
    }
    Ok(places)
}

fn find_in_stmt(
    places: &mut Items<Span>,
    names: &Names,
    files: &[SourceFile],
    given: &[Distinct],
    stmt: &Stmt,
) -> Result<(), NoMemory>
    ensures { OnOk result (places.new ≡ places.old ++ spec.unknown_of names.now files.now given.now stmt.now) }
{
    match stmt.kind.get() {
        StmtKind::Import(import) => find_in_import(places, names, files, given, import),
        _ => Ok(()),
    }
}

fn find_in_import(
    places: &mut Items<Span>,
    names: &Names,
    files: &[SourceFile],
    given: &[Distinct],
    import: &Import,
) -> Result<(), NoMemory>
    ensures { OnOk result (places.new ≡ places.old ++ spec.unknown_from names.now given.now (spec.origin_of files.now import.now.from) import.now.names) }
{
    let origin = origin_of(files, import.from.as_str());
    find_in_specs(places, names, given, origin, import.names.as_slice())
}

fn find_in_specs(
    places: &mut Items<Span>,
    names: &Names,
    given: &[Distinct],
    origin: Origin,
    specs: &[ImportName],
) -> Result<(), NoMemory>
    ensures { OnOk result (places.new ≡ places.old ++ spec.unknown_from names.now given.now origin specs.now) }
{
    for spec in specs {
        if !gives(names, given, origin, spec.given.name) {
            places.push(spec.given.span)?;
        }
    }
    Ok(())
}

fn gives(names: &Names, given: &[Distinct], origin: Origin, name: Name) -> bool
    ensures { result ≡ spec.gives names.now given.now origin name }
{
    match origin {
        Origin::Life => is_life_function(names, name),
        Origin::Stores => is_store_function(names, name),
        Origin::File(file) => match given.get(file) {
            Some(given) => given.has(Ref::Plain(name)),
            None => false,
        },
        Origin::Nowhere => false,
    }
}
