// The expressions of markup.
ghost use Rattle.std.specs.Prelude.{◌≡◌, ◌++◌, not, filter, option_map, IfOk, OnOk};
ghost use Rattle.sv_names.specs.Distinct.{has, firsts, with_name, with_names};
ghost use Rattle.sv_names.specs.Uses.{free_names as spec_free_names};
ghost use Rattle.sv_names.specs.Locals.{names_of};
ghost use Rattle.sv_fragments.specs.Around.{seen};
ghost use Rattle.sv_lower.specs.Does.{Makes, given};
ghost use Rattle.sv_fragments.specs.Expressions as spec;

use crate::around::{Around, Tables};
use crate::attributes::next_number;
use std::alloc::Global;
use sv_ast::{Expr, Ref, RefList};
use sv_base::NoMemory;
use sv_code::{Arrows, Part};
use sv_deps::reading;
use sv_lower::{Inside, lower_expr};
use sv_names::{Distinct, LocalScope, free_names};

/// The part of an expression, which looks at the names that stand free in it.
pub(crate) fn part(
    tables: &mut Tables,
    around: &Around<'_>,
    locals: &LocalScope<'_>,
    e: &Expr,
) -> Result<Part, NoMemory>
    ensures { Makes result (spec.part e.now (seen around.now) (names_of locals.now) tables.old) tables.new }
{
    let names = free_names(around.alloc, e)?;
    part_of(tables, around, locals, names.as_slice(), e)
}

/// The part of an expression that looks at some names. The arrows that are written in it are the functions that it adds.
#[tactic(auto, unfolding(crate::specs::Expressions::part_of))]
pub(crate) fn part_of(
    tables: &mut Tables,
    around: &Around<'_>,
    locals: &LocalScope<'_>,
    names: &[Ref],
    e: &Expr,
) -> Result<Part, NoMemory>
    ensures { Makes result (spec.part_of names.now e.now (seen around.now) (names_of locals.now) tables.old) tables.new }
{
    let inside = Inside {
        alloc: around.alloc,
        tops: around.tops,
        locals,
    };
    let reads = reading(around.alloc, around.tops, around.cells, locals, names)?;
    let from = next_number(tables.functions.len())?;
    let code = lower_expr(&inside, &mut tables.functions, e)?;
    let to = next_number(tables.functions.len())?;
    Ok(Part {
        span: e.span,
        code,
        arrows: Arrows { from, to },
        reads,
    })
}

/// The part of an expression that may be absent.
pub(crate) fn optional_part(
    tables: &mut Tables,
    around: &Around<'_>,
    locals: &LocalScope<'_>,
    e: Option<&Expr>,
) -> Result<Option<Part>, NoMemory>
    ensures { Makes result (given (option_map spec.part (option_map (λ x. x.now) e.entry)) (seen around.now) (names_of locals.now) tables.old) tables.new }
{
    match e {
        Some(e) => Ok(Some(part(tables, around, locals, e)?)),
        None => Ok(None),
    }
}

/// The names of the list of an each block, of whose row some names are.
pub(crate) fn list_names(
    alloc: Global,
    row: &Distinct,
    list: &Expr,
    key: Option<&Expr>,
) -> Result<RefList, NoMemory>
    ensures { IfOk result (λ names. names ≡ spec.list_names row.now list.now (option_map (λ x. x.now) key.entry)) }
{
    let names = free_names(alloc, list)?;
    match key {
        Some(key) => with_key(alloc, row, names.as_slice(), key),
        None => Ok(names),
    }
}

// Some names, and those of a key but for those of its row, each once.
#[tactic(auto, using(sv_names::proofs::Names::with_names_append))]
fn with_key(alloc: Global, row: &Distinct, names: &[Ref], key: &Expr) -> Result<RefList, NoMemory>
    ensures { IfOk result (λ all. all ≡ firsts (names.now ++ filter (λ name. not (has name row.now)) (spec_free_names key.now))) }
{
    let own = free_names(alloc, key)?;
    let mut known = Distinct::new(alloc);
    let mut all = RefList::new(alloc);
    add_names(&mut known, &mut all, names)?;
    add_others(&mut known, &mut all, row, own.as_slice())?;
    Ok(all)
}

fn add_names(known: &mut Distinct, all: &mut RefList, names: &[Ref]) -> Result<(), NoMemory>
    requires { known.old ≡ all.old }
    ensures known { OnOk result (known.new ≡ all.new) }
    ensures all { OnOk result (all.new ≡ with_names all.old names.now) }
{
    for name in names {
        add_name(known, all, *name)?;
    }
    Ok(())
}

fn add_others(
    known: &mut Distinct,
    all: &mut RefList,
    row: &Distinct,
    names: &[Ref],
) -> Result<(), NoMemory>
    requires { known.old ≡ all.old }
    ensures known { OnOk result (known.new ≡ all.new) }
    ensures all { OnOk result (all.new ≡ with_names all.old (filter (λ name. not (has name row.now)) names.now)) }
{
    for name in names {
        if !row.has(*name) {
            add_name(known, all, *name)?;
        }
    }
    Ok(())
}

fn add_name(known: &mut Distinct, all: &mut RefList, name: Ref) -> Result<(), NoMemory>
    requires { known.old ≡ all.old }
    ensures known { OnOk result (known.new ≡ all.new) }
    ensures all { OnOk result (all.new ≡ with_name all.old name) }
{
    if !known.has(name) {
        known.add(name)?;
        all.push(name)?;
    }
    Ok(())
}
