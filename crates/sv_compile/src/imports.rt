// What a file imports between braces.
ghost use Rattle.std.specs.Prelude.{◌≡◌, ◌++◌, IfOk, OnOk, map, option_map, slice_get};
ghost use Rattle.std.specs.List.{filter_map};
ghost use Rattle.std.specs.Option.{option_to_list};
ghost use Rattle.sv_base.specs.BuiltIn.{life_functions};
ghost use Rattle.sv_compile.specs.Constants as spec;
ghost use Rattle.sv_compile.specs.declared.imports.TheConstants.{LIVES};

use crate::constants::{Given, constant_number, place_in};
use std::alloc::Global;
use sv_ast::{Bundle, ImportName, SourceFile, Stmt, StmtKind};
use sv_base::built_in::LIFE_FUNCTIONS;
use sv_base::{Name, Names, NoMemory};
use sv_code::{Known, Life};
use sv_imports::{Origin, is_derived, is_store_function, origin_of};
use sv_list::Items;

/// What `LIFE_FUNCTIONS` are.
const LIVES: [Life; 7] = [
    Life::OnMount,
    Life::BeforeUpdate,
    Life::AfterUpdate,
    Life::OnDestroy,
    Life::SetContext,
    Life::GetContext,
    Life::CreateEventDispatcher,
];

/// Adds the names that a statement imports between braces, but for those that nothing gives.
pub(crate) fn add_imported(
    alloc: Global,
    given: &mut Items<Given>,
    bundle: &Bundle,
    stmt: &Stmt,
) -> Result<(), NoMemory>
    ensures { OnOk result (given.new ≡ given.old ++ spec.imported bundle.now.names bundle.now.files stmt.now) }
{
    match stmt.kind.get() {
        StmtKind::Import(import) => {
            let from = origin_of(bundle.files.as_slice(), import.from.as_str());
            add_specs(alloc, given, bundle, from, import.names.as_slice())
        }
        _ => Ok(()),
    }
}

fn add_specs(
    alloc: Global,
    given: &mut Items<Given>,
    bundle: &Bundle,
    from: Origin,
    specs: &[ImportName],
) -> Result<(), NoMemory>
    ensures { OnOk result (given.new ≡ given.old ++ filter_map (spec.spec_given bundle.now.names bundle.now.files from) specs.now) }
{
    for imported in specs {
        let known = import_of(alloc, bundle, from, imported.given.name)?;
        add_known(given, imported, known)?;
    }
    Ok(())
}

fn add_known(
    given: &mut Items<Given>,
    imported: &ImportName,
    known: Option<Known>,
) -> Result<(), NoMemory>
    ensures { OnOk result (given.new ≡ given.old ++ option_to_list (option_map (λ k. record { named = imported.now.local; known = k }) known)) }
{
    if let Some(known) = known {
        given.push(Given {
            named: imported.local,
            known,
        })?;
    }
    Ok(())
}

// What an import gives under a name.
fn import_of(
    alloc: Global,
    bundle: &Bundle,
    from: Origin,
    name: Name,
) -> Result<Option<Known>, NoMemory>
    ensures { IfOk result (λ known. known ≡ spec.import_of bundle.now.names bundle.now.files from name) }
{
    match from {
        Origin::Life => Ok(life_of(&bundle.names, name)),
        Origin::Stores => Ok(store_of(&bundle.names, name)),
        Origin::File(file) => export_of(alloc, bundle.files.as_slice(), file, name),
        Origin::Nowhere => Ok(None),
    }
}

fn life_of(names: &Names, name: Name) -> Option<Known>
    ensures { result ≡ spec.life_among names.now life_functions LIVES name }
{
    life_among(names, &LIFE_FUNCTIONS, &LIVES, name)
}

// What a name stands for, where texts stand for some of what `svelte` gives.
fn life_among(names: &Names, texts: &[&str], lives: &[Life], name: Name) -> Option<Known>
    ensures { result ≡ spec.life_among names.now (map (λ text. text.now) texts.now) lives.now name }
{
    for (text, life) in texts.iter().zip(lives) {
        if names.is_text(name, text) {
            return Some(Known::Life(*life));
        }
    }
    None
}

fn store_of(names: &Names, name: Name) -> Option<Known>
    ensures { result ≡ spec.store_given names.now name }
{
    if is_derived(names, name) {
        return Some(Known::Derived);
    }
    if is_store_function(names, name) {
        return Some(Known::Writable);
    }
    None
}

// What a file gives under a name.
fn export_of(
    alloc: Global,
    files: &[SourceFile],
    file: usize,
    name: Name,
) -> Result<Option<Known>, NoMemory>
    ensures { IfOk result (λ known. known ≡ spec.export_at file (slice_get files.now file) name) }
{
    let Some(source) = files.get(file) else {
        return Ok(None);
    };
    let Some(place) = place_in(alloc, source, name)? else {
        return Ok(None);
    };
    Ok(Some(Known::Export {
        file: file_number(file)?,
        constant: constant_number(place)?,
    }))
}

/// The number of a file, where it is below 2^16.
pub(crate) fn file_number(n: usize) -> Result<u16, NoMemory>
    ensures { IfOk result (λ number. number ≡ n) }
{
    match u16::try_from(n) {
        Ok(number) => Ok(number),
        Err(_) => Err(NoMemory),
    }
}
