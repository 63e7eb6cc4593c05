// More cells than a component may have.
ghost use Rattle.std.specs.Prelude.{◌≡◌, ◌++◌, [], map, filter, IfOk, OnOk};
ghost use Rattle.std.specs.Option.{option_to_list};
ghost use Rattle.sv_names.specs.Distinct.{firsts};
ghost use Rattle.sv_resolve.specs.Cells as resolved;
ghost use Rattle.sv_resolve.specs.Places as place;
ghost use Rattle.sv_check.specs.Cells as spec;

use std::alloc::Global;
use sv_ast::Ref;
use sv_base::{CELL_LIMIT, Names, NoMemory, Span};
use sv_list::Items;
use sv_names::Distinct;
use sv_resolve::{declaration_place, is_store, is_variable, is_view, name_place};
use sv_scopes::{Declared, Scope, Use};

/// Where the first cell stands that is too many.
pub(crate) fn too_many(alloc: Global, names: &Names, top: &Scope) -> Result<Items<Span>, NoMemory>
    ensures { IfOk result (λ places. places ≡ spec.too_many names.now top.now) }
{
    let mut cells = Items::new(alloc);
    add_variables(&mut cells, names, top.declares.as_slice())?;
    add_stores(alloc, &mut cells, names, top.uses.as_slice())?;
    add_view(&mut cells, top.uses.as_slice())?;
    let mut places = Items::new(alloc);
    if let Some(at) = cells.as_slice().get(CELL_LIMIT) {
        places.push(*at)?;
    }
    Ok(places)
}

fn add_variables(
    cells: &mut Items<Span>,
    names: &Names,
    declares: &[Declared],
) -> Result<(), NoMemory>
    ensures { OnOk result (cells.new ≡ cells.old ++ map (place.declaration_place names.now) (filter (λ d. resolved.is_variable d.by) declares.now)) }
{
    for declared in declares {
        if is_variable(declared.by) {
            cells.push(declaration_place(names, declared))?;
        }
    }
    Ok(())
}

/// The variables that are declared.
pub(crate) fn variables(alloc: Global, declares: &[Declared]) -> Result<Distinct, NoMemory>
    ensures { IfOk result (λ names. names ≡ firsts (resolved.variables declares.now)) }
{
    let mut names = Distinct::new(alloc);
    for declared in declares {
        if is_variable(declared.by) {
            names.add(Ref::Plain(declared.name))?;
        }
    }
    Ok(names)
}

fn add_stores(
    alloc: Global,
    cells: &mut Items<Span>,
    names: &Names,
    uses: &[Use],
) -> Result<(), NoMemory>
    ensures { OnOk result (cells.new ≡ cells.old ++ spec.store_places names.now [] uses.now) }
{
    let mut known = Distinct::new(alloc);
    for found in uses {
        if is_new_store(&known, found) {
            known.add(found.name)?;
            cells.push(name_place(names, found))?;
        }
    }
    Ok(())
}

fn is_new_store(known: &Distinct, found: &Use) -> bool
    ensures { result ≡ spec.is_new_store known.now found.now }
{
    is_store(found.name) && !known.has(found.name)
}

fn add_view(cells: &mut Items<Span>, uses: &[Use]) -> Result<(), NoMemory>
    ensures { OnOk result (cells.new ≡ cells.old ++ option_to_list (spec.first_view uses.now)) }
{
    if let Some(at) = first_view(uses) {
        cells.push(at)?;
    }
    Ok(())
}

fn first_view(uses: &[Use]) -> Option<Span>
    ensures { result ≡ spec.first_view uses.now }
{
    for found in uses {
        if is_view(found.name) {
            return Some(found.span);
        }
    }
    None
}
