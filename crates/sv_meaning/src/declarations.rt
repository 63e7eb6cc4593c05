// Declarations, and the names that are open in the body of a function.
ghost use Rattle.std.specs.Prelude.{◌≡◌, ◌≤◌, map, IfOk, OnOk};
ghost use Rattle.sv_value.specs.View.{view_of};
ghost use Rattle.sv_ops.specs.Answer.{object_made};
ghost use Rattle.sv_ops.specs.Answers.{Answers};
ghost use Rattle.sv_meaning.specs.Env.{Env};
ghost use Rattle.sv_meaning.specs.Functions.{env_of, returned, event_fields};
ghost use Rattle.sv_meaning.specs.Gives.{EndsAs};
ghost use Rattle.sv_meaning.specs.Statements.{declare, initialized, name_given, constant_set, variable, may_show, subscribe, subscribe_if};
ghost use Rattle.sv_meaning.specs.Gives.{flow_of};

use crate::counting::fault;
use crate::errors::EvalError;
use crate::locals::Locals;
use std::alloc::Global;
use sv_base::{NoMemory, Span, Text};
use sv_code::{CodeDecl, Function, Known};
use sv_ops::{FaultKind, Given, OpError, object_of};
use sv_store::Sub;
use sv_value::{Inst, Value};
use sv_world::World;

/// How a statement ends.
#[derive(Drop)]
pub enum End {
    Next,
    Broken,
    Continued,
    Returned(Value),
}

/// A name that is declared in a block or a function gets its first value.
pub fn give_name(locals: &mut Locals, target: Known, value: Value)
    ensures { locals.new ≡ name_given target (view_of value) locals.old }
{
    match target {
        Known::Local(name) => locals.give(name, value),
        _ => drop(value),
    }
}

/// A name that is declared at the top of a file gets its first value, and where its `$` name is written the cell of that is subscribed:
/// `NotAStore` exactly where the value is none then.
pub fn declare(
    world: &mut World,
    owner: Inst,
    decl: &CodeDecl,
    value: Value,
) -> Result<(), EvalError>
    ensures { EndsAs (λ u. u) result world.new (declare owner.number decl.now (view_of value) world.old) }
{
    let span = decl.name.span;
    let held = value.share()?;
    initialize(world, owner, decl, value)?;
    match decl.store {
        Some(cell) => subscribe(
            world,
            Sub { inst: owner, cell },
            variable(decl.target),
            &held,
            span,
        ),
        None => Ok(()),
    }
}

fn initialize(world: &mut World, owner: Inst, decl: &CodeDecl, value: Value) -> Result<(), NoMemory>
    ensures { OnOk result (world.new ≡ initialized owner.number decl.now.target decl.now.name.span (view_of value) world.old) }
{
    match decl.target {
        Known::Cell(cell) => {
            world.states.declare(Sub { inst: owner, cell }, value);
            Ok(())
        }
        Known::Constant(constant) => {
            set_constant(world, owner, decl.name.span.file, constant, value)
        }
        _ => {
            drop(value);
            Ok(())
        }
    }
}

/// A constant of the file in which code is written gets its value.
pub fn set_constant(
    world: &mut World,
    owner: Inst,
    file: u16,
    constant: u32,
    value: Value,
) -> Result<(), NoMemory>
    ensures set { OnOk result (world.new ≡ constant_set owner.number file constant (view_of value) world.old) }
    ensures fewer { world.new.turn.steps ≤ world.old.turn.steps }
{
    if owner.number == 0 {
        world.modules.set(file, constant, value)
    } else {
        world.set_constant(owner, constant, value)
    }
}

// The cell of a variable.
fn variable(target: Known) -> Option<u8>
    ensures { result ≡ variable target }
{
    match target {
        Known::Cell(cell) => Some(cell),
        _ => None,
    }
}

/// The cell of a `$` name is subscribed to the store that its name has, a constant or the variable in `source`; where a variable has
/// `undefined` or `null`, the cell is undefined. `NotAStore` at the place exactly where the value is another.
pub fn subscribe(
    world: &mut World,
    at: Sub,
    source: Option<u8>,
    value: &Value,
    span: Span,
) -> Result<(), EvalError>
    ensures means { EndsAs (λ u. u) result world.new (subscribe at.inst.number at.cell source span (view_of value.now) world.old) }
    ensures fewer { world.new.turn.steps ≤ world.old.turn.steps }
{
    if !may_show(source, value) {
        return Err(fault(FaultKind::NotAStore, span));
    }
    world.states.subscribe(at, source, value)?;
    Ok(())
}

// Whether what has a `$` name may have a value.
fn may_show(source: Option<u8>, value: &Value) -> bool
    ensures { result ≡ may_show source (view_of value.now) }
{
    match value {
        Value::Store(_) => true,
        Value::Undefined | Value::Null => source.is_some(),
        _ => false,
    }
}

/// The names that are open in the body of a function: those that it took along, its parameters, and what it declares.
pub fn open_body(
    alloc: Global,
    function: &Function,
    held: &[Value],
    args: &[Value],
) -> Result<Locals, NoMemory>
    ensures { IfOk result (λ locals. locals ≡ env_of function.now (map view_of held.now) (map view_of args.now)) }
{
    let mut locals = Locals::new(alloc);
    locals.bind(function.captured.as_slice(), held)?;
    locals.bind_params(function.params.as_slice(), args)?;
    locals.open_all(function.declares.as_slice())?;
    Ok(locals)
}

/// What a function's body gives.
pub fn returned(end: End) -> Value
    ensures { view_of result ≡ returned (flow_of end) }
{
    match end {
        End::Returned(value) => value,
        End::Next | End::Broken | End::Continued => Value::Undefined,
    }
}

/// The event object of a dispatched event. An absent detail is `null`.
pub fn event_of(alloc: Global, name: &Text, detail: Value) -> Result<Given, OpError>
    ensures { Answers result (object_made (event_fields name.now (view_of detail))) }
{
    let detail = match detail {
        Value::Undefined => Value::Null,
        detail => detail,
    };
    let mut fields = Vec::new(alloc);
    let key = Text::new(alloc, "type")?;
    fields.push((key, Value::Text(name.share()?)))?;
    let key = Text::new(alloc, "detail")?;
    fields.push((key, detail))?;
    object_of(alloc, fields)
}
