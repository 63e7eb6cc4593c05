// Calls.
ghost use Rattle.std.specs.Prelude.{◌≡◌, ◌≤◌, ◌<◌, [], map, length, is_some, option_copied};
ghost use Rattle.sv_base.specs.declared.limits.TheConstants.{VALUE_SIZE_LIMIT};
ghost use Rattle.sv_value.specs.Value.{items};
ghost use Rattle.sv_value.specs.View.{view_of};
ghost use Rattle.sv_meaning.specs.Calls as spec;
ghost use Rattle.sv_meaning.specs.Context.{ground_of, calls_of, expr_in, mode_of};
ghost use Rattle.sv_meaning.specs.Functions.{entered, env_of};
ghost use Rattle.sv_meaning.specs.Gives.{Gives, EndsAs};
ghost use Rattle.sv_meaning.specs.Values.{call_step, callee_of, Plain, Converts, On, built_call, method_call, value_call, field_call, math_call, divided_or, ratio_or, divide, rounds};
ghost use Rattle.sv_eval.specs.Quotient.{ratio_of};
ghost use Rattle.sv_code.specs.declared.known.BuiltIn.TheVariants as console;

use crate::listeners::dispatch;
use crate::lookups::{
    Call, Quotient, Visit, built_of, has_method, has_owner, quotient_of, rounds_of, start_of,
};
use crate::settling::{make_derived, set_store};
use crate::statements::run_all;
use crate::values::{eval, eval_all, eval_links};
use sv_base::Span;
use sv_code::{BuiltIn, Code, CodeKind, Function, FunctionBody, Known, Method, Property};
use sv_meaning::{
    Context, EvalError, Locals, answer, call_life, convert, count, fault, first, is_of_math,
    is_on_list, is_on_text, log, make_store, of_math, on_list, on_text, open_body, put_item,
    returned, store_value, takes_function,
};
use sv_ops::{FaultKind, Verdict, arguments, finish, judge, quotient};
use sv_value::{List, Value};
use sv_world::World;

/// What a call gives.
#[cycle(eval)]
pub(crate) fn eval_call(
    context: &Context,
    world: &mut World,
    locals: &mut Locals,
    call: Call,
) -> Result<Value, EvalError>
    ensures means { Gives view_of result locals.new world.new (call_step (expr_in context.now call.entry.of.now).callee (ground_of context.now) (calls_of context.now) context.now.owner.number (expr_in context.now call.entry.of.now) (map (expr_in context.now) call.entry.args.now) call.entry.span locals.old world.old) }
    ensures fewer { world.new.turn.steps ≤ world.old.turn.steps }
{
    match call.of.kind.get() {
        CodeKind::Member { of, property } => call_member(
            context, world, locals, call, of, *property,
        ),
        CodeKind::Read(name) => call_name(context, world, locals, call, *name),
        _ => call_plain(context, world, locals, call),
    }
}

// A call of the value of an expression.
#[cycle(eval)]
fn call_plain(
    context: &Context,
    world: &mut World,
    locals: &mut Locals,
    call: Call,
) -> Result<Value, EvalError>
    ensures means { Gives view_of result locals.new world.new (call_step Plain (ground_of context.now) (calls_of context.now) context.now.owner.number (expr_in context.now call.entry.of.now) (map (expr_in context.now) call.entry.args.now) call.entry.span locals.old world.old) }
    ensures fewer { world.new.turn.steps ≤ world.old.turn.steps }
{
    let function = eval(context, world, locals, call.of)?;
    let args = eval_all(context, world, locals, call.args)?;
    call_value(context, world, &function, &args, call.span)
}

// A call of a name.
#[cycle(eval)]
fn call_name(
    context: &Context,
    world: &mut World,
    locals: &mut Locals,
    call: Call,
    name: Known,
) -> Result<Value, EvalError>
    ensures means { Gives view_of result locals.new world.new (call_step (callee_of name) (ground_of context.now) (calls_of context.now) context.now.owner.number (expr_in context.now call.entry.of.now) (map (expr_in context.now) call.entry.args.now) call.entry.span locals.old world.old) }
    ensures fewer { world.new.turn.steps ≤ world.old.turn.steps }
{
    match name {
        Known::Life(life) => {
            count(world, call.of.span)?;
            let args = eval_all(context, world, locals, call.args)?;
            call_life(world, life, context.owner, &args, call.span)
        }
        Known::Writable => {
            count(world, call.of.span)?;
            let args = eval_all(context, world, locals, call.args)?;
            make_store(world, &args)
        }
        Known::Derived => {
            count(world, call.of.span)?;
            let args = eval_all(context, world, locals, call.args)?;
            make_derived(context, world, &args, call.span)
        }
        Known::BuiltIn(BuiltIn::String) => call_conversion(
            context,
            world,
            locals,
            call,
            BuiltIn::String,
        ),
        Known::BuiltIn(BuiltIn::Boolean) => call_conversion(
            context,
            world,
            locals,
            call,
            BuiltIn::Boolean,
        ),
        _ => call_plain(context, world, locals, call),
    }
}

#[cycle(eval)]
fn call_conversion(
    context: &Context,
    world: &mut World,
    locals: &mut Locals,
    call: Call,
    to: BuiltIn,
) -> Result<Value, EvalError>
    ensures means { Gives view_of result locals.new world.new (call_step (Converts to) (ground_of context.now) (calls_of context.now) context.now.owner.number (expr_in context.now call.entry.of.now) (map (expr_in context.now) call.entry.args.now) call.entry.span locals.old world.old) }
    ensures fewer { world.new.turn.steps ≤ world.old.turn.steps }
{
    count(world, call.of.span)?;
    let args = eval_all(context, world, locals, call.args)?;
    answer(world, convert(context.alloc, to, &args), call.span)
}

// A call of a member of the value of an expression, which may be `Math` or `console`.
#[cycle(eval)]
fn call_member(
    context: &Context,
    world: &mut World,
    locals: &mut Locals,
    call: Call,
    of: &Code,
    property: Property,
) -> Result<Value, EvalError>
    ensures means { Gives view_of result locals.new world.new (call_step (On (expr_in context.now of.now).built (expr_in context.now of.now).means property) (ground_of context.now) (calls_of context.now) context.now.owner.number (expr_in context.now call.entry.of.now) (map (expr_in context.now) call.entry.args.now) call.entry.span locals.old world.old) }
    ensures fewer { world.new.turn.steps ≤ world.old.turn.steps }
{
    count(world, call.of.span)?;
    let value = eval(context, world, locals, of)?;
    match built_of(of) {
        Some(built) => call_built(context, world, locals, call, built, property.method),
        None => call_method(context, world, locals, call, &value, property),
    }
}

// A call of a method of `Math` or `console`; faults of the member stand at it.
#[cycle(eval)]
fn call_built(
    context: &Context,
    world: &mut World,
    locals: &mut Locals,
    call: Call,
    built: BuiltIn,
    method: Option<Method>,
) -> Result<Value, EvalError>
    ensures means { Gives view_of result locals.new world.new (built_call built method call.entry.span call.entry.of.now.span (map (expr_in context.now) call.entry.args.now) locals.old world.old) }
    ensures fewer { world.new.turn.steps ≤ world.old.turn.steps }
{
    match built {
        BuiltIn::Math => call_math(context, world, locals, call, method),
        BuiltIn::Console => call_console(context, world, locals, call, method),
        BuiltIn::String | BuiltIn::Boolean => Err(fault(FaultKind::NoMember, call.of.span)),
    }
}

#[cycle(eval)]
fn call_console(
    context: &Context,
    world: &mut World,
    locals: &mut Locals,
    call: Call,
    method: Option<Method>,
) -> Result<Value, EvalError>
    ensures means { Gives view_of result locals.new world.new (built_call console.Console method call.entry.span call.entry.of.now.span (map (expr_in context.now) call.entry.args.now) locals.old world.old) }
    ensures fewer { world.new.turn.steps ≤ world.old.turn.steps }
{
    let Some(Method::Log) = method else {
        return Err(fault(FaultKind::NoMember, call.of.span));
    };
    let args = eval_all(context, world, locals, call.args)?;
    log(context.alloc, world, &args, call.span)
}

#[cycle(eval)]
fn call_math(
    context: &Context,
    world: &mut World,
    locals: &mut Locals,
    call: Call,
    method: Option<Method>,
) -> Result<Value, EvalError>
    ensures means { Gives view_of result locals.new world.new (divided_or (rounds method) method call.entry.span call.entry.of.now.span (map (expr_in context.now) call.entry.args.now) locals.old world.old) }
    ensures fewer { world.new.turn.steps ≤ world.old.turn.steps }
{
    match (rounds_of(method), call.args) {
        (Some(truncates), [only]) => call_rounding(
            context, world, locals, call, method, truncates, only,
        ),
        _ => call_math_method(context, world, locals, call, method),
    }
}

// `Math.floor` or `Math.trunc` of one argument, which may be a quotient.
#[cycle(eval)]
fn call_rounding(
    context: &Context,
    world: &mut World,
    locals: &mut Locals,
    call: Call,
    method: Option<Method>,
    truncates: bool,
    only: &Code,
) -> Result<Value, EvalError>
    ensures means { Gives view_of result locals.new world.new (ratio_or (expr_in context.now only.now).ratio truncates call.entry.span (expr_in context.now only.now).span (math_call method call.entry.span call.entry.of.now.span (map (expr_in context.now) call.entry.args.now)) locals.old world.old) }
    ensures fewer { world.new.turn.steps ≤ world.old.turn.steps }
{
    match quotient_of(only) {
        Some(of) => eval_quotient(context, world, locals, call.span, truncates, of),
        None => call_math_method(context, world, locals, call, method),
    }
}

#[cycle(eval)]
fn eval_quotient(
    context: &Context,
    world: &mut World,
    locals: &mut Locals,
    span: Span,
    truncates: bool,
    of: Quotient,
) -> Result<Value, EvalError>
    ensures means { Gives view_of result locals.new world.new (divide truncates span of.entry.at (ratio_of context.now of.entry) locals.old world.old) }
    ensures fewer { world.new.turn.steps ≤ world.old.turn.steps }
{
    count(world, of.at)?;
    let first = eval(context, world, locals, of.first)?;
    let top = eval_links(context, world, locals, of.at, first, of.before)?;
    let bottom = eval(context, world, locals, of.bottom)?;
    answer(world, quotient(truncates, &top, &bottom), span)
}

#[cycle(eval)]
fn call_math_method(
    context: &Context,
    world: &mut World,
    locals: &mut Locals,
    call: Call,
    method: Option<Method>,
) -> Result<Value, EvalError>
    ensures means { Gives view_of result locals.new world.new (math_call method call.entry.span call.entry.of.now.span (map (expr_in context.now) call.entry.args.now) locals.old world.old) }
    ensures fewer { world.new.turn.steps ≤ world.old.turn.steps }
{
    match method {
        Some(method) if is_of_math(method) => {
            let args = eval_all(context, world, locals, call.args)?;
            answer(world, of_math(method, &args), call.span)
        }
        _ => Err(fault(FaultKind::NoMember, call.of.span)),
    }
}

// A call of a member of a value, which is looked at before the arguments.
#[cycle(eval)]
fn call_method(
    context: &Context,
    world: &mut World,
    locals: &mut Locals,
    call: Call,
    value: &Value,
    property: Property,
) -> Result<Value, EvalError>
    ensures means { Gives view_of result locals.new world.new (method_call (ground_of context.now) (calls_of context.now) property call.entry.span call.entry.of.now.span (map (expr_in context.now) call.entry.args.now) (view_of value.now) locals.old world.old) }
    ensures fewer { world.new.turn.steps ≤ world.old.turn.steps }
{
    match value {
        Value::Obj(object) => {
            let args = eval_all(context, world, locals, call.args)?;
            let function = context.field(object, property)?;
            call_field(context, world, &function, &args, call.span)
        }
        Value::List(list) => match property.method {
            Some(method) if is_on_list(method) => {
                let args = eval_all(context, world, locals, call.args)?;
                call_on_list(context, world, method, list, &args, call.span)
            }
            _ => call_of_value(context, world, locals, call, value, property),
        },
        Value::Text(text) => match property.method {
            Some(method) if is_on_text(method) => {
                let args = eval_all(context, world, locals, call.args)?;
                answer(
                    world,
                    on_text(context.alloc, method, text.as_str(), &args),
                    call.span,
                )
            }
            _ => call_of_value(context, world, locals, call, value, property),
        },
        Value::Store(id) => match property.method {
            Some(method) if has_method(world, *id, method) => {
                let args = eval_all(context, world, locals, call.args)?;
                call_on_store(context, world, method, *id, &args, call.span)
            }
            _ => call_of_value(context, world, locals, call, value, property),
        },
        _ => Err(fault(FaultKind::NoMember, call.of.span)),
    }
}

// A call of what a member is, where it is no method.
#[cycle(eval)]
fn call_of_value(
    context: &Context,
    world: &mut World,
    locals: &mut Locals,
    call: Call,
    value: &Value,
    property: Property,
) -> Result<Value, EvalError>
    ensures means { Gives view_of result locals.new world.new (value_call (ground_of context.now) (calls_of context.now) (view_of value.now) property call.entry.span call.entry.of.now.span (map (expr_in context.now) call.entry.args.now) locals.old world.old) }
    ensures fewer { world.new.turn.steps ≤ world.old.turn.steps }
{
    let function = answer(world, context.member(value, property), call.of.span)?;
    let args = eval_all(context, world, locals, call.args)?;
    call_value(context, world, &function, &args, call.span)
}

// A call of a field of an object; a pure evaluation calls none.
#[cycle(eval)]
fn call_field(
    context: &Context,
    world: &mut World,
    function: &Value,
    args: &[Value],
    span: Span,
) -> Result<Value, EvalError>
    ensures means { EndsAs view_of result world.new (field_call (is_some (option_copied context.now.sight)) (calls_of context.now) span (view_of function.now) (map view_of args.now) world.old) }
    ensures fewer { world.new.turn.steps ≤ world.old.turn.steps }
{
    if context.sight.is_some() {
        return Err(fault(FaultKind::NotAFunction, span));
    }
    call_value(context, world, function, args, span)
}

#[cycle(eval)]
fn call_on_list(
    context: &Context,
    world: &mut World,
    method: Method,
    list: &List,
    args: &[Value],
    span: Span,
) -> Result<Value, EvalError>
    ensures means { EndsAs view_of result world.new (spec.on_list method (calls_of context.now) span (items list.now) (map view_of args.now) world.old) }
    ensures fewer { world.new.turn.steps ≤ world.old.turn.steps }
{
    if takes_function(method) {
        visit(context, world, method, list, args, span)
    } else {
        answer(world, on_list(context.alloc, method, list, args), span)
    }
}

// A call on a list that takes a function.
#[cycle(eval)]
fn visit(
    context: &Context,
    world: &mut World,
    method: Method,
    list: &List,
    args: &[Value],
    span: Span,
) -> Result<Value, EvalError>
    ensures means { EndsAs view_of result world.new (spec.visit (calls_of context.now) method span (items list.now) (map view_of args.now) world.old) }
    ensures fewer { world.new.turn.steps ≤ world.old.turn.steps }
{
    let function = first(args)?;
    if !matches!(function, Value::Func(_)) {
        return Err(fault(FaultKind::NotAFunction, span));
    }
    let Some(held) = start_of(method, args)? else {
        return Err(fault(FaultKind::NoMember, span));
    };
    let visit = Visit {
        span,
        method,
        function: &function,
        items: list.items(),
    };
    visit_items(context, world, visit, held)
}

#[cycle(eval)]
fn visit_items(
    context: &Context,
    world: &mut World,
    visit: Visit,
    held: Value,
) -> Result<Value, EvalError>
    requires { length visit.items.now < VALUE_SIZE_LIMIT }
    ensures means { EndsAs view_of result world.new (spec.visited (calls_of context.now) visit.entry.method visit.entry.span (view_of visit.entry.function.now) [] (view_of held) 0 (map view_of visit.entry.items.now) world.old) }
    ensures fewer { world.new.turn.steps ≤ world.old.turn.steps }
{
    let mut made = Vec::new(context.alloc);
    let mut so_far = held;
    for i in 0..visit.items.len() {
        let item = &visit.items[i];
        let args = arguments(context.alloc, visit.method, &so_far, item, i)?;
        let gave = call_value(context, world, visit.function, &args, visit.span)?;
        match judge(visit.method, gave, item, i)? {
            Verdict::Ends(value) => return Ok(value),
            Verdict::Puts(value) => put_item(world, &mut made, value, visit.span)?,
            Verdict::Passes => {}
            Verdict::Holds(value) => so_far = value,
        }
    }
    answer(
        world,
        finish(context.alloc, visit.method, made, so_far),
        visit.span,
    )
}

#[cycle(eval)]
fn call_on_store(
    context: &Context,
    world: &mut World,
    method: Method,
    id: u32,
    args: &[Value],
    span: Span,
) -> Result<Value, EvalError>
    ensures means { EndsAs view_of result world.new (spec.on_store method (calls_of context.now) span id (map view_of args.now) world.old) }
    ensures fewer { world.new.turn.steps ≤ world.old.turn.steps }
{
    let value = first(args)?;
    if method == Method::Set {
        return set_store(context, world, id, value, span);
    }
    if !matches!(value, Value::Func(_)) {
        return Err(fault(FaultKind::NotAFunction, span));
    }
    let old = store_value(world, id)?;
    let new = call_value(context, world, &value, &[old], span)?;
    set_store(context, world, id, new, span)
}

/// What a call of a value gives; `NotAFunction` exactly where it is none, `Dead` exactly where the owner of the function is gone, or else
/// `CallDepth` where no more calls may be open.
#[cycle(eval)]
pub fn call_value(
    context: &Context,
    world: &mut World,
    function: &Value,
    args: &[Value],
    span: Span,
) -> Result<Value, EvalError>
    ensures means { EndsAs view_of result world.new (spec.call_value (calls_of context.now) span (view_of function.now) (map view_of args.now) world.old) }
    ensures fewer { world.new.turn.steps ≤ world.old.turn.steps }
{
    let Value::Func(function) = function else {
        return Err(fault(FaultKind::NotAFunction, span));
    };
    let owner = function.owner();
    if !has_owner(context, world, owner) {
        return Err(fault(FaultKind::Dead, span));
    }
    if context.room == 0 {
        return Err(fault(FaultKind::CallDepth, span));
    }
    let Some(code) = context
        .program
        .functions
        .as_slice()
        .get(function.code() as usize)
    else {
        return Ok(Value::Undefined);
    };
    let inside = Context {
        is_own: context.arrows.contains(function.code()),
        owner,
        room: context.room - 1,
        ..*context
    };
    call_function(&inside, world, code, function.held(), args, span)
}

// What the body of a function gives.
#[cycle(eval)]
fn call_function(
    context: &Context,
    world: &mut World,
    function: &Function,
    held: &[Value],
    args: &[Value],
    span: Span,
) -> Result<Value, EvalError>
    ensures means { EndsAs view_of result world.new (entered function.now.body (mode_of (ground_of context.now)).tells (ground_of context.now) (calls_of context.now) context.now.owner.number (env_of function.now (map view_of held.now) (map view_of args.now)) (map view_of args.now) span world.old) }
    ensures fewer { world.new.turn.steps ≤ world.old.turn.steps }
{
    match &function.body {
        FunctionBody::Value(code) => {
            let mut locals = open_body(context.alloc, function, held, args)?;
            eval(context, world, &mut locals, code)
        }
        FunctionBody::Block(stmts) => {
            let mut locals = open_body(context.alloc, function, held, args)?;
            let end = run_all(context, world, &mut locals, stmts.as_slice())?;
            Ok(returned(end))
        }
        FunctionBody::Dispatch => dispatch(context, world, args, span),
        FunctionBody::Writable => make_store(world, args),
    }
}
