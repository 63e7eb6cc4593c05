// The functions that are known in files by name.
ghost use Rattle.std.specs.Prelude.{◌≡◌, ◌∷◌, ◌++◌, ◌<◌, ◌&&◌, false, [], IfOk, OnOk, IfSome, All, length, map, replicate, position, slice_index_or, slice_set, if◌then◌else◌};
ghost use Rattle.std.specs.List.{flat_map, range_with_len};
ghost use Rattle.std.specs.Str.{bytes_eq};
ghost use Rattle.sv_ast.specs.Files.{statements_of, is_module};
ghost use Rattle.sv_effects.specs.Functions.{functions as all_functions};
ghost use Rattle.sv_effects.specs.Known as spec;
ghost use Rattle.sv_names.specs.NameMap.{with_entry, with_entries};

use crate::functions::Function;
use indexmap::IndexMap;
use std::alloc::Global;
use sv_ast::{Bundle, Import, ImportName, Ref, RefList, SourceFile, Stmt, StmtKind, name_in};
use sv_base::NoMemory;
use sv_names::NameMap;

/// The names that stand for functions of which a list says `false`.
pub(crate) fn names_without(
    alloc: Global,
    known: &NameMap,
    spoiled: &[bool],
) -> Result<RefList, NoMemory>
    requires { All (λ k. k.1 < length spoiled.now) known.now }
    ensures { IfOk result (λ names. names ≡ spec.names_without (λ p. slice_index_or spoiled.now p false) known.now) }
{
    other_names(alloc, known.entries(), spoiled)
}

// The names that stand for other functions than those that are spoiled.
fn other_names(
    alloc: Global,
    points: &IndexMap<Ref, usize>,
    spoiled: &[bool],
) -> Result<RefList, NoMemory>
    requires { All (λ k. k.1 < length spoiled.now) points.now.entries }
    ensures { IfOk result (λ names. names ≡ spec.names_without (λ p. slice_index_or spoiled.now p false) points.now.entries) }
{
    let mut names = RefList::new(alloc);
    for (name, point) in points.iter() {
        push_unless(&mut names, spoiled[*point], *name)?;
    }
    Ok(names)
}

fn push_unless(names: &mut RefList, is_spoiled: bool, name: Ref) -> Result<(), NoMemory>
    ensures { OnOk result (names.new ≡ names.old ++ (if is_spoiled then [] else name ∷ [])) }
{
    if !is_spoiled {
        names.push(name)?;
    }
    Ok(())
}

/// For each file, the functions that are known in it: its own ones, and then those that it imports.
pub(crate) fn known_of(
    alloc: Global,
    bundle: &Bundle,
    functions: &[Function],
) -> Result<Vec<NameMap>, NoMemory>
    requires functions { functions.now ≡ all_functions bundle.now }
    ensures known { IfOk result (λ known. known.items ≡ map (spec.known bundle.now) (range_with_len 0 (length bundle.now.files))) }
    ensures within { IfOk result (λ known. All (λ points. All (λ k. k.1 < length functions.now) points) known.items) }
{
    let files = bundle.files.as_slice();
    let given = own(alloc, files.len(), functions, true)?;
    let mut known = own(alloc, files.len(), functions, false)?;
    for (file, source) in files.iter().enumerate() {
        add_imports_at(&mut known, file, &given, files, source)?;
    }
    Ok(known)
}

// Adds what a file imports to what is known in it.
fn add_imports_at(
    known: &mut Vec<NameMap>,
    file: usize,
    given: &[NameMap],
    files: &[SourceFile],
    source: &SourceFile,
) -> Result<(), NoMemory>
    requires within { file < length known.old.items }
    requires given { length given.now ≡ length files.now }
    ensures { OnOk result (known.new.items ≡ slice_set known.old.items file (with_entries (slice_index_or known.old.items file []) (spec.imported files.now given.now (statements_of source.now.tree)))) }
{
    add_imports(&mut known[file], given, files, source.tree.statements())
}

// For each file its functions by name, or those alone that it gives to others.
fn own(
    alloc: Global,
    count: usize,
    functions: &[Function],
    only_given: bool,
) -> Result<Vec<NameMap>, NoMemory>
    requires within { All (λ f. f.file < count) functions.now }
    ensures { IfOk result (λ own. own.items ≡ map (spec.own only_given functions.now) (range_with_len 0 count)) }
{
    let mut own = unknown(alloc, count)?;
    for (point, function) in functions.iter().enumerate() {
        if function.exported || !only_given {
            let name = Ref::Plain(function.name);
            add_at(&mut own, function.file, name, point)?;
        }
    }
    Ok(own)
}

// Adds a name to those that are known in a file.
fn add_at(own: &mut Vec<NameMap>, file: usize, name: Ref, point: usize) -> Result<(), NoMemory>
    requires { file < length own.old.items }
    ensures { OnOk result (own.new.items ≡ slice_set own.old.items file (with_entry (slice_index_or own.old.items file []) (name, point))) }
{
    own[file].add(name, point)
}

// For as many files no functions.
fn unknown(alloc: Global, count: usize) -> Result<Vec<NameMap>, NoMemory>
    ensures { IfOk result (λ known. known.items ≡ replicate count []) }
{
    let mut known = Vec::new(alloc);
    for _ in 0..count {
        known.push(NameMap::new(alloc))?;
    }
    Ok(known)
}

fn add_imports(
    known: &mut NameMap,
    given: &[NameMap],
    files: &[SourceFile],
    stmts: &[Stmt],
) -> Result<(), NoMemory>
    requires { length given.now ≡ length files.now }
    ensures { OnOk result (known.new ≡ with_entries known.old (spec.imported files.now given.now stmts.now)) }
{
    for stmt in stmts {
        add_stmt(known, given, files, stmt)?;
    }
    Ok(())
}

fn add_stmt(
    known: &mut NameMap,
    given: &[NameMap],
    files: &[SourceFile],
    stmt: &Stmt,
) -> Result<(), NoMemory>
    requires { length given.now ≡ length files.now }
    ensures { OnOk result (known.new ≡ with_entries known.old (spec.stmt_imported files.now given.now stmt.now)) }
{
    match stmt.kind.get() {
        StmtKind::Import(import) => add_import(known, given, files, import),
        _ => Ok(()),
    }
}

fn add_import(
    known: &mut NameMap,
    given: &[NameMap],
    files: &[SourceFile],
    import: &Import,
) -> Result<(), NoMemory>
    requires { length given.now ≡ length files.now }
    ensures { OnOk result (known.new ≡ with_entries known.old (spec.given_names files.now given.now import.now)) }
{
    match module_at(files, import.from.as_str()) {
        Some(file) => add_specs(known, &given[file], import.names.as_slice()),
        None => Ok(()),
    }
}

// Adds the names between the braces of an import that are those of functions of a module.
#[tactic(auto, using(crate::proofs::Knowing::named_cons))]
fn add_specs(known: &mut NameMap, given: &NameMap, specs: &[ImportName]) -> Result<(), NoMemory>
    ensures { OnOk result (known.new ≡ with_entries known.old (flat_map (spec.named_by given.now) specs.now)) }
{
    for item in specs {
        add_spec(known, given, item)?;
    }
    Ok(())
}

fn add_spec(known: &mut NameMap, given: &NameMap, item: &ImportName) -> Result<(), NoMemory>
    ensures { OnOk result (known.new ≡ with_entries known.old (spec.named_by given.now item.now)) }
{
    match given.get(Ref::Plain(item.given.name)) {
        Some(point) => known.add(Ref::Plain(item.local.name), point),
        None => Ok(()),
    }
}

// The module that an import names.
fn module_at(files: &[SourceFile], from: &str) -> Option<usize>
    ensures module { result ≡ spec.module_at files.now from.now }
    ensures within { IfSome result (λ file. file < length files.now) }
{
    match name_in(from) {
        Some(name) => module_of_name(files, name),
        None => None,
    }
}

fn module_of_name(files: &[SourceFile], name: &str) -> Option<usize>
    ensures module { result ≡ position (λ source. is_module source.tree && bytes_eq source.name name.now) files.now }
    ensures within { IfSome result (λ file. file < length files.now) }
{
    files.iter().position(|source| source.tree.is_module() && source.name.as_str() == name)
}
