// Components and modules.
ghost use Rattle.std.specs.Prelude.{◌≡◌, ◌≤◌, ◌<◌, [], length, All, IfOk};
ghost use Rattle.sv_base.specs.declared.limits.TheConstants.{CELL_LIMIT};
ghost use Rattle.sv_compile.specs.Compile as spec;
ghost use Rattle.sv_compile.specs.Constants.{all_constants as spec_constants};
ghost use Rattle.sv_compile.specs.Runs.{reactives};
ghost use Rattle.sv_compile.specs.Sheet as sheets;
ghost use Rattle.sv_fragments.specs.Around.{seen};
ghost use Rattle.sv_lower.specs.Does.{Makes};

use crate::cells::{cell_of, props_of, reactive_cells, stores_of};
use crate::constants::{Given, all_constants, constant_number, givens};
use crate::holders::add_variables;
use crate::runs::{prop_names, runs_of};
use crate::top_level::tops;
use std::alloc::Global;
use sv_ast::{Bundle, Component, RefList, Stmt};
use sv_base::NoMemory;
use sv_check::CheckedComponent;
use sv_code::{
    CellList, CodeStmts, Component as CodeComponent, Frags, Module, Props, Runs, StoreCells,
};
use sv_fragments::{Around, Tables, fragments_of};
use sv_lower::{Inside, TopNames, lower_stmts};
use sv_names::LocalScope;
use sv_scopes::VIEW;
use sv_slots::children_of;

/// A component: the functions of its script come before those of its markup.
#[tactic(auto, unfolding(crate::specs::Compile::component))]
pub(crate) fn compile_component(
    alloc: Global,
    tables: &mut Tables,
    bundle: &Bundle,
    c: &Component,
    told: &CheckedComponent,
) -> Result<CodeComponent, NoMemory>
    requires few { length told.now.scopes.cells ≤ CELL_LIMIT }
    requires below { All (λ n. n < length (reactives c.now.script.stmts)) told.now.order.items }
    ensures { Makes result (spec.component bundle.now c.now told.now tables.old) tables.new }
{
    let stmts = c.script.stmts.as_slice();
    let mut given = givens(alloc, bundle, stmts)?;
    let tops = tops(
        alloc,
        &bundle.names,
        told.scopes.cells.as_slice(),
        given.as_slice(),
    )?;
    add_variables(alloc, &mut given, &bundle.names, &tops, c)?;
    let sheet = sheet_of(alloc, &tops, given.as_slice(), stmts, told)?;
    let children = children_of(alloc, bundle.files.as_slice(), stmts)?;
    let around = Around {
        alloc,
        tops: &tops,
        cells: told.scopes.cells.as_slice(),
        children: &children,
    };
    compile_parts(tables, &around, c, sheet)
}

// What a component has besides its code.
#[derive(Drop)]
struct Sheet {
    cells: RefList,
    props: Props,
    reactive: CellList,
    stores: StoreCells,
    view: Option<u8>,
    constants: u32,
    runs: Runs,
}

fn sheet_of(
    alloc: Global,
    tops: &TopNames<'_>,
    holders: &[Given],
    stmts: &[Stmt],
    told: &CheckedComponent,
) -> Result<Sheet, NoMemory>
    requires few { length told.now.scopes.cells ≤ CELL_LIMIT }
    requires below { All (λ n. n < length (reactives stmts.now)) told.now.order.items }
    ensures { IfOk result (λ sheet. sheet ≡ sheets.sheet tops.now holders.now stmts.now told.now) }
{
    let cells = told.scopes.cells.as_slice();
    let props = prop_names(alloc, stmts)?;
    Ok(Sheet {
        cells: RefList::copy_of(alloc, cells)?,
        props: props_of(alloc, tops, props.as_slice())?,
        reactive: reactive_cells(alloc, cells, stmts)?,
        stores: stores_of(alloc, holders, cells)?,
        view: cell_of(tops, VIEW),
        constants: constant_count(alloc, stmts)?,
        runs: runs_of(alloc, cells, stmts, &told.order)?,
    })
}

// The code of the script of a component, and then that of its markup.
fn compile_parts(
    tables: &mut Tables,
    around: &Around<'_>,
    c: &Component,
    sheet: Sheet,
) -> Result<CodeComponent, NoMemory>
    ensures { Makes result (sheets.parts c.now sheet (seen around.now) [] tables.old) tables.new }
{
    let script = compile_script(tables, around.alloc, around.tops, c.script.stmts.as_slice())?;
    let markup = fragments_of(tables, around, c.nodes.as_slice())?;
    Ok(filled(sheet, script, markup))
}

// A component of which some script and some markup are the code.
fn filled(sheet: Sheet, script: CodeStmts, markup: Frags) -> CodeComponent
    ensures { result ≡ sheets.filled sheet script markup }
{
    let Sheet {
        cells,
        props,
        reactive,
        stores,
        view,
        constants,
        runs,
    } = sheet;
    CodeComponent {
        cells,
        props,
        reactive,
        stores,
        view,
        constants,
        runs,
        script,
        markup,
    }
}

// The code of a script.
fn compile_script(
    tables: &mut Tables,
    alloc: Global,
    tops: &TopNames<'_>,
    stmts: &[Stmt],
) -> Result<CodeStmts, NoMemory>
    ensures { Makes result (spec.script_code tops.now stmts.now tables.old) tables.new }
{
    let inside = Inside {
        alloc,
        tops,
        locals: &LocalScope::Outside,
    };
    lower_stmts(&inside, &mut tables.functions, stmts)
}

// How many constants the statements of a file declare.
fn constant_count(alloc: Global, stmts: &[Stmt]) -> Result<u32, NoMemory>
    ensures { IfOk result (λ count. count ≡ length (spec_constants stmts.now)) }
{
    let constants = all_constants(alloc, stmts)?;
    constant_number(constants.len())
}

/// A module.
#[tactic(auto, unfolding(crate::specs::Compile::module_code))]
pub(crate) fn compile_module(
    alloc: Global,
    tables: &mut Tables,
    bundle: &Bundle,
    stmts: &[Stmt],
) -> Result<Module, NoMemory>
    ensures { Makes result (spec.module_code bundle.now stmts.now tables.old) tables.new }
{
    let given = givens(alloc, bundle, stmts)?;
    let tops = tops(alloc, &bundle.names, &[], given.as_slice())?;
    let constants = constant_count(alloc, stmts)?;
    let script = compile_script(tables, alloc, &tops, stmts)?;
    Ok(Module { constants, script })
}
