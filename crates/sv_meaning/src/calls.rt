// Calls that call no function of a script.
ghost use Rattle.std.specs.Prelude.{◌≡◌, ◌≤◌, map, IfOk};
ghost use Rattle.sv_value.specs.Value.{items};
ghost use Rattle.sv_value.specs.View.{view_of};
ghost use Rattle.sv_ops.specs.Answers.{Answers};
ghost use Rattle.std.specs.Prelude.{slice_get};
ghost use Rattle.sv_ops.specs.Members.{or_undefined};
ghost use Rattle.sv_store.specs.Stores.{value_at};
ghost use Rattle.sv_meaning.specs.Calls as spec;
ghost use Rattle.sv_meaning.specs.Gives.{EndsAs};
ghost use Rattle.sv_meaning.specs.Values.{life_call, call_at, convert};

use crate::counting::{assigned, fault, spend};
use crate::errors::EvalError;
use std::alloc::Global;
use sv_base::{NoMemory, Span};
use sv_code::{BuiltIn, Life, Method};
use sv_instance::When;
use sv_ops::{
    FaultKind, Given, OpError, absolute, concat, contains, ends, greatest, includes, index_of,
    join, least, line, pieces, rounded, slice, starts, to_boolean, to_text, trimmed,
};
use sv_value::{Inst, Key, List, Value};
use sv_world::World;

/// The first argument, undefined where there is none.
pub fn first(args: &[Value]) -> Result<Value, NoMemory>
    ensures { IfOk result (λ v. view_of v ≡ spec.first (map view_of args.now)) }
{
    match args {
        [first, ..] => first.share(),
        [] => Ok(Value::Undefined),
    }
}

/// The second argument, undefined where there is none.
pub fn second(args: &[Value]) -> Result<Value, NoMemory>
    ensures { IfOk result (λ v. view_of v ≡ spec.second (map view_of args.now)) }
{
    match args {
        [_, second, ..] => second.share(),
        _ => Ok(Value::Undefined),
    }
}

/// Whether lists have a method of this name.
pub fn is_on_list(method: Method) -> bool
    ensures { result ≡ spec.is_on_list method }
{
    takes_function(method)
        || matches!(
            method,
            Method::Includes | Method::IndexOf | Method::Slice | Method::Concat | Method::Join
        )
}

/// Whether a method of lists takes a function.
pub fn takes_function(method: Method) -> bool
    ensures { result ≡ spec.takes_function method }
{
    matches!(
        method,
        Method::Map
            | Method::Filter
            | Method::Some
            | Method::Every
            | Method::Find
            | Method::FindIndex
            | Method::ForEach
            | Method::Reduce
    )
}

/// What a method of lists that takes no function gives.
pub fn on_list(alloc: Global, method: Method, list: &List, args: &[Value]) -> Result<Given, OpError>
    ensures { Answers result (spec.list_answer method (items list.now) (map view_of args.now)) }
{
    match method {
        Method::Includes => includes(list, &first(args)?),
        Method::IndexOf => index_of(list, &first(args)?),
        Method::Slice => slice(alloc, list, &first(args)?, &second(args)?),
        Method::Concat => concat(alloc, list, &first(args)?),
        _ => join(alloc, list, &first(args)?),
    }
}

/// Whether texts have a method of this name.
pub fn is_on_text(method: Method) -> bool
    ensures { result ≡ spec.is_on_text method }
{
    matches!(
        method,
        Method::Trim | Method::Includes | Method::StartsWith | Method::EndsWith | Method::Split
    )
}

/// What a method of texts gives.
pub fn on_text(alloc: Global, method: Method, text: &str, args: &[Value]) -> Result<Given, OpError>
    ensures { Answers result (spec.on_text method text.now (map view_of args.now)) }
{
    match method {
        Method::Trim => trimmed(alloc, text),
        Method::Includes => contains(text, &first(args)?),
        Method::StartsWith => starts(text, &first(args)?),
        Method::EndsWith => ends(text, &first(args)?),
        _ => pieces(alloc, text, &first(args)?),
    }
}

/// Whether stores have a method of this name.
pub fn is_on_store(method: Method) -> bool
    ensures { result ≡ spec.is_on_store method }
{
    matches!(method, Method::Set | Method::Update)
}

/// A store takes a value, before derived stores settle; `NoMember` exactly where it is a derived one.
pub fn put_store(world: &mut World, id: u32, value: Value, span: Span) -> Result<(), EvalError>
    ensures means { EndsAs (λ u. u) result world.new (spec.store_put span id (view_of value) world.old) }
    ensures fewer { world.new.turn.steps ≤ world.old.turn.steps }
{
    assigned(world.set_store(id, value), span)
}

/// The value of a store, undefined where it was never made.
pub fn store_value(world: &World, id: u32) -> Result<Value, NoMemory>
    ensures { IfOk result (λ v. view_of v ≡ or_undefined (value_at world.now.states.stores id)) }
{
    match world.states.store_value(id) {
        Some(value) => value.share(),
        None => Ok(Value::Undefined),
    }
}

/// A new store with the first argument (`writable`).
pub fn make_store(world: &mut World, args: &[Value]) -> Result<Value, EvalError>
    ensures means { EndsAs view_of result world.new (spec.make_store (spec.first (map view_of args.now)) world.old) }
    ensures fewer { world.new.turn.steps ≤ world.old.turn.steps }
{
    let id = world.states.make_store(first(args)?)?;
    Ok(Value::Store(id))
}

/// Whether `Math` has a method of this name.
pub fn is_of_math(method: Method) -> bool
    ensures { result ≡ spec.is_of_math method }
{
    matches!(
        method,
        Method::Abs | Method::Min | Method::Max | Method::Floor | Method::Trunc
    )
}

/// What a method of `Math` gives.
pub fn of_math(method: Method, args: &[Value]) -> Result<Given, OpError>
    ensures { Answers result (spec.of_math method (map view_of args.now)) }
{
    match method {
        Method::Abs => absolute(&first(args)?),
        Method::Min => least(args),
        Method::Max => greatest(args),
        _ => rounded(&first(args)?),
    }
}

/// `console.log`: a line of the log; `NotText` exactly where an argument has no text, or else `Steps` where its bytes are more than the
/// steps that are left.
pub fn log(alloc: Global, world: &mut World, args: &[Value], span: Span) -> Result<Value, EvalError>
    ensures means { EndsAs view_of result world.new (spec.log span (map view_of args.now) world.old) }
    ensures fewer { world.new.turn.steps ≤ world.old.turn.steps }
{
    let line = match line(alloc, args) {
        Ok(line) => line,
        Err(OpError::Fault(kind)) => return Err(fault(kind, span)),
        Err(OpError::NoMemory) => return Err(EvalError::NoMemory),
    };
    spend(world, line.as_str().len(), span)?;
    world.turn.write_log(line)?;
    Ok(Value::Undefined)
}

/// `String` or `Boolean` of the first argument.
pub fn convert(alloc: Global, to: BuiltIn, args: &[Value]) -> Result<Given, OpError>
    ensures { Answers result (convert to (spec.first (map view_of args.now))) }
{
    match to {
        BuiltIn::String => to_text(alloc, &first(args)?),
        BuiltIn::Boolean => Ok(to_boolean(&first(args)?)),
        BuiltIn::Math | BuiltIn::Console => Ok(Given {
            value: Value::Undefined,
            cost: 0,
        }),
    }
}

/// A call of what `svelte` gives: `NotAFunction` exactly where a callback isn't one, `BadKey` exactly where a key of a context can't be one.
pub fn call_life(
    world: &mut World,
    life: Life,
    owner: Inst,
    args: &[Value],
    span: Span,
) -> Result<Value, EvalError>
    ensures means { EndsAs view_of result world.new (life_call life owner.number span (map view_of args.now) world.old) }
    ensures fewer { world.new.turn.steps ≤ world.old.turn.steps }
{
    match life {
        Life::OnMount => call_at(world, When::Mount, owner, first(args)?, span),
        Life::BeforeUpdate => call_at(world, When::Before, owner, first(args)?, span),
        Life::AfterUpdate => call_at(world, When::After, owner, first(args)?, span),
        Life::OnDestroy => call_at(world, When::Destroy, owner, first(args)?, span),
        Life::SetContext => set_context(world, owner, args, span),
        Life::GetContext => get_context(world, owner, args, span),
        Life::CreateEventDispatcher => Ok(Value::Undefined),
    }
}

// Registers a callback.
fn call_at(
    world: &mut World,
    when: When,
    owner: Inst,
    callback: Value,
    span: Span,
) -> Result<Value, EvalError>
    ensures means { EndsAs view_of result world.new (call_at when owner.number span (view_of callback) world.old) }
    ensures fewer { world.new.turn.steps ≤ world.old.turn.steps }
{
    if !matches!(callback, Value::Func(_)) {
        return Err(fault(FaultKind::NotAFunction, span));
    }
    world.add_callback(owner, when, callback)?;
    Ok(Value::Undefined)
}

fn set_context(
    world: &mut World,
    owner: Inst,
    args: &[Value],
    span: Span,
) -> Result<Value, EvalError>
    ensures means { EndsAs view_of result world.new (life_call Life.SetContext owner.number span (map view_of args.now) world.old) }
    ensures fewer { world.new.turn.steps ≤ world.old.turn.steps }
{
    let Some(key) = Key::of(&first(args)?)? else {
        return Err(fault(FaultKind::BadKey, span));
    };
    let value = second(args)?;
    world.set_context(owner, key, value.share()?)?;
    Ok(value)
}

fn get_context(
    world: &mut World,
    owner: Inst,
    args: &[Value],
    span: Span,
) -> Result<Value, EvalError>
    ensures means { EndsAs view_of result world.new (life_call Life.GetContext owner.number span (map view_of args.now) world.old) }
    ensures fewer { world.new.turn.steps ≤ world.old.turn.steps }
{
    let Some(key) = Key::of(&first(args)?)? else {
        return Err(fault(FaultKind::BadKey, span));
    };
    match world.states.context(owner, &key) {
        Some(value) => Ok(value.share()?),
        None => Ok(Value::Undefined),
    }
}
