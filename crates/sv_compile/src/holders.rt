// What may hold the stores of a component.
ghost use Rattle.std.specs.Prelude.{◌≡◌, ◌++◌, OnOk};
ghost use Rattle.std.specs.Option.{option_to_list};
ghost use Rattle.sv_compile.specs.Holders as spec;

use crate::constants::Given;
use std::alloc::Global;
use sv_ast::{Component, Named, Ref};
use sv_base::{Names, NoMemory};
use sv_list::Items;
use sv_lower::TopNames;
use sv_resolve::{declaration_place, is_variable};
use sv_scopes::{Declared, scopes_of_component};

/// Adds the variables of a component to the constants and imports that may hold stores. `NoMemory` comes only where memory runs out.
pub(crate) fn add_variables(
    alloc: Global,
    given: &mut Items<Given>,
    names: &Names,
    tops: &TopNames<'_>,
    c: &Component,
) -> Result<(), NoMemory>
    ensures { OnOk result (given.new ≡ spec.holders names.now tops.now given.old c.now) }
{
    let scopes = scopes_of_component(alloc, c)?;
    add_declared(given, names, tops, scopes.top.declares.as_slice())
}

fn add_declared(
    given: &mut Items<Given>,
    names: &Names,
    tops: &TopNames<'_>,
    declares: &[Declared],
) -> Result<(), NoMemory>
    ensures { OnOk result (given.new ≡ given.old ++ spec.variables names.now tops.now declares.now) }
{
    for declared in declares {
        if is_variable(declared.by) {
            add_variable(given, names, tops, declared)?;
        }
    }
    Ok(())
}

fn add_variable(
    given: &mut Items<Given>,
    names: &Names,
    tops: &TopNames<'_>,
    declared: &Declared,
) -> Result<(), NoMemory>
    ensures { OnOk result (given.new ≡ given.old ++ option_to_list (spec.variable names.now tops.now declared.now)) }
{
    match tops.get(Ref::Plain(declared.name)) {
        Some(known) => given.push(Given {
            named: placed_name(names, declared),
            known,
        }),
        None => Ok(()),
    }
}

fn placed_name(names: &Names, declared: &Declared) -> Named
    ensures { result ≡ spec.placed_name names.now declared.now }
{
    Named {
        name: declared.name,
        span: declaration_place(names, declared),
    }
}
