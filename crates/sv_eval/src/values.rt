// Expressions.
ghost use Rattle.std.specs.Prelude.{◌≡◌, ◌≤◌, map, option_copied};
ghost use Rattle.sv_value.specs.View.{view_of};
ghost use Rattle.sv_ops.specs.Operators.{stops};
ghost use Rattle.sv_meaning.specs.Context.{ground_of, calls_of, expr_in, value_in, kind_in, link_in, valued_in};
ghost use Rattle.sv_meaning.specs.Gives.{Gives};
ghost use Rattle.sv_meaning.specs.Statements.{value_or, tested};
ghost use Rattle.sv_meaning.specs.Values.{all_values, all_texts, template_step, assign_step, bump_step, indexed, dispatcher_step, chained, linked};

use crate::calls::eval_call;
use crate::literals::{eval_fields, eval_items};
use crate::lookups::{Assign, Bump, Call, MakeDispatcher, bump_value};
use crate::settling::set;
use sv_ast::AssignOp;
use sv_base::{Span, Text};
use sv_code::{Code, CodeKind, CodeLink};
use sv_meaning::{Context, EvalError, Locals, answer, count, text_at};
use sv_ops::{
    assigned, binary, bumped, function_of, index, joined, list_of, negated, object_of, stops,
    text_value,
};
use sv_value::{Value, truthy};
use sv_world::World;

/// What an expression gives.
#[cycle(eval)]
pub fn eval(
    context: &Context,
    world: &mut World,
    locals: &mut Locals,
    code: &Code,
) -> Result<Value, EvalError>
    ensures means { Gives view_of result locals.new world.new (value_in context.now code.now locals.old world.old) }
    ensures fewer { world.new.turn.steps ≤ world.old.turn.steps }
{
    count(world, code.span)?;
    eval_kind(context, world, locals, code.span, code.kind.get())
}

#[cycle(eval)]
fn eval_kind(
    context: &Context,
    world: &mut World,
    locals: &mut Locals,
    span: Span,
    kind: &CodeKind,
) -> Result<Value, EvalError>
    ensures means { Gives view_of result locals.new world.new ((kind_in context.now kind.now span).means locals.old world.old) }
    ensures fewer { world.new.turn.steps ≤ world.old.turn.steps }
{
    match kind {
        CodeKind::Undefined => Ok(Value::Undefined),
        CodeKind::Null => Ok(Value::Null),
        CodeKind::Bool(truth) => Ok(Value::Bool(*truth)),
        CodeKind::Num(number) => Ok(Value::Num(*number)),
        CodeKind::Text(text) => answer(world, text_value(text), span),
        CodeKind::Read(name) => context.read(world, locals, *name, span),
        CodeKind::List(parts) => {
            let made = eval_items(context, world, locals, span, parts.as_slice())?;
            answer(world, list_of(context.alloc, made), span)
        }
        CodeKind::Object(parts) => {
            let made = eval_fields(context, world, locals, span, parts.as_slice())?;
            answer(world, object_of(context.alloc, made), span)
        }
        CodeKind::Template(parts) => {
            eval_template(context, world, locals, span, parts.as_slice())
        }
        CodeKind::Arrow(code) => {
            let made = context.make_arrow(locals, *code);
            answer(world, made, span)
        }
        CodeKind::Assign {
            target,
            at,
            op,
            value,
        } => {
            let assign = Assign {
                span,
                target: *target,
                at: *at,
                op: *op,
                value,
            };
            eval_assign(context, world, locals, assign)
        }
        CodeKind::Bump {
            target,
            at,
            up,
            prefix,
        } => {
            let bump = Bump {
                span,
                target: *target,
                at: *at,
                up: *up,
                prefix: *prefix,
            };
            eval_bump(context, world, locals, bump)
        }
        CodeKind::Chain { first, rest } => {
            let value = eval(context, world, locals, first)?;
            eval_links(context, world, locals, span, value, rest.as_slice())
        }
        CodeKind::Not(of) => {
            let value = eval(context, world, locals, of)?;
            Ok(Value::Bool(!truthy(&value)))
        }
        CodeKind::Minus(of) => {
            let value = eval(context, world, locals, of)?;
            answer(world, negated(&value), span)
        }
        CodeKind::Choose { test, yes, no } => {
            let test = eval(context, world, locals, test)?;
            let chosen = if truthy(&test) { yes } else { no };
            eval(context, world, locals, chosen)
        }
        CodeKind::Member { of, property } => {
            let value = eval(context, world, locals, of)?;
            answer(world, context.member(&value, *property), span)
        }
        CodeKind::Index { of, at } => eval_index(context, world, locals, span, of, at),
        CodeKind::Call { of, args } => {
            let args = args.as_slice();
            eval_call(context, world, locals, Call { span, of, args })
        }
        CodeKind::Dispatcher { number, at, args } => {
            let call = MakeDispatcher {
                span,
                at: *at,
                number: *number,
                args: args.as_slice(),
            };
            eval_dispatcher(context, world, locals, call)
        }
    }
}

/// What expressions give, from left to right.
#[cycle(eval)]
pub(crate) fn eval_all(
    context: &Context,
    world: &mut World,
    locals: &mut Locals,
    codes: &[Code],
) -> Result<Vec<Value>, EvalError>
    ensures means { Gives (λ vs. map view_of vs.items) result locals.new world.new (all_values (map (expr_in context.now) codes.now) locals.old world.old) }
    ensures fewer { world.new.turn.steps ≤ world.old.turn.steps }
{
    let mut values = Vec::new(context.alloc);
    for code in codes {
        let value = eval(context, world, locals, code)?;
        values.push(value)?;
    }
    Ok(values)
}

// What a template gives.
#[cycle(eval)]
fn eval_template(
    context: &Context,
    world: &mut World,
    locals: &mut Locals,
    span: Span,
    parts: &[Code],
) -> Result<Value, EvalError>
    ensures means { Gives view_of result locals.new world.new (template_step span (map (expr_in context.now) parts.now) locals.old world.old) }
    ensures fewer { world.new.turn.steps ≤ world.old.turn.steps }
{
    let texts = eval_texts(context, world, locals, span, parts)?;
    answer(world, joined(context.alloc, "", &texts), span)
}

// The texts of the parts of a template at a place. Each is made before the next part is evaluated.
#[cycle(eval)]
fn eval_texts(
    context: &Context,
    world: &mut World,
    locals: &mut Locals,
    span: Span,
    parts: &[Code],
) -> Result<Vec<Text>, EvalError>
    ensures means { Gives (λ ts. ts.items) result locals.new world.new (all_texts span (map (expr_in context.now) parts.now) locals.old world.old) }
    ensures fewer { world.new.turn.steps ≤ world.old.turn.steps }
{
    let mut texts = Vec::new(context.alloc);
    for part in parts {
        let value = eval(context, world, locals, part)?;
        texts.push(text_at(context.alloc, &value, span)?)?;
    }
    Ok(texts)
}

/// What an expression gives, undefined where there is none.
#[cycle(eval)]
pub fn eval_or(
    context: &Context,
    world: &mut World,
    locals: &mut Locals,
    code: Option<&Code>,
) -> Result<Value, EvalError>
    ensures means { Gives view_of result locals.new world.new (value_or (valued_in context.now (option_copied code.entry)) locals.old world.old) }
    ensures fewer { world.new.turn.steps ≤ world.old.turn.steps }
{
    match code {
        Some(code) => eval(context, world, locals, code),
        None => Ok(Value::Undefined),
    }
}

/// Whether a condition holds, which it does where there is none.
#[cycle(eval)]
pub(crate) fn eval_test(
    context: &Context,
    world: &mut World,
    locals: &mut Locals,
    test: Option<&Code>,
) -> Result<bool, EvalError>
    ensures means { Gives (λ b. b) result locals.new world.new (tested (valued_in context.now (option_copied test.entry)) locals.old world.old) }
    ensures fewer { world.new.turn.steps ≤ world.old.turn.steps }
{
    match test {
        Some(test) => {
            let value = eval(context, world, locals, test)?;
            Ok(truthy(&value))
        }
        None => Ok(true),
    }
}

#[cycle(eval)]
fn eval_assign(
    context: &Context,
    world: &mut World,
    locals: &mut Locals,
    assign: Assign,
) -> Result<Value, EvalError>
    ensures means { Gives view_of result locals.new world.new (assign_step assign.entry.op (ground_of context.now) (calls_of context.now) context.now.owner.number assign.entry.target assign.entry.at assign.entry.span (value_in context.now assign.entry.value.now) locals.old world.old) }
    ensures fewer { world.new.turn.steps ≤ world.old.turn.steps }
{
    if matches!(assign.op, AssignOp::Set) {
        let value = eval(context, world, locals, assign.value)?;
        return set(context, world, locals, assign.target, value, assign.at);
    }
    let old = context.read(world, locals, assign.target, assign.at)?;
    let operand = eval(context, world, locals, assign.value)?;
    let made = assigned(context.alloc, assign.op, &old, operand);
    let new = answer(world, made, assign.span)?;
    set(context, world, locals, assign.target, new, assign.at)
}

#[cycle(eval)]
fn eval_index(
    context: &Context,
    world: &mut World,
    locals: &mut Locals,
    span: Span,
    of: &Code,
    at: &Code,
) -> Result<Value, EvalError>
    ensures means { Gives view_of result locals.new world.new (indexed span (value_in context.now of.now) (value_in context.now at.now) locals.old world.old) }
    ensures fewer { world.new.turn.steps ≤ world.old.turn.steps }
{
    let of = eval(context, world, locals, of)?;
    let at = eval(context, world, locals, at)?;
    answer(world, index(context.alloc, &of, &at), span)
}

// What a call of `createEventDispatcher` gives; what it is handed is evaluated and dropped.
#[cycle(eval)]
fn eval_dispatcher(
    context: &Context,
    world: &mut World,
    locals: &mut Locals,
    call: MakeDispatcher,
) -> Result<Value, EvalError>
    ensures means { Gives view_of result locals.new world.new (dispatcher_step call.entry.number context.now.owner.number call.entry.at call.entry.span (map (expr_in context.now) call.entry.args.now) locals.old world.old) }
    ensures fewer { world.new.turn.steps ≤ world.old.turn.steps }
{
    count(world, call.at)?;
    let args = eval_all(context, world, locals, call.args)?;
    drop(args);
    let made = function_of(
        context.alloc,
        call.number,
        context.owner,
        Vec::new(context.alloc),
    );
    answer(world, made, call.span)
}

/// What the operators of a chain make of a value.
#[cycle(eval)]
pub(crate) fn eval_links(
    context: &Context,
    world: &mut World,
    locals: &mut Locals,
    span: Span,
    value: Value,
    links: &[CodeLink],
) -> Result<Value, EvalError>
    ensures means { Gives view_of result locals.new world.new (chained span (view_of value) (map (link_in context.now) links.now) locals.old world.old) }
    ensures fewer { world.new.turn.steps ≤ world.old.turn.steps }
{
    let mut so_far = value;
    for link in links {
        so_far = eval_link(context, world, locals, span, so_far, link)?;
    }
    Ok(so_far)
}

#[cycle(eval)]
fn eval_link(
    context: &Context,
    world: &mut World,
    locals: &mut Locals,
    span: Span,
    value: Value,
    link: &CodeLink,
) -> Result<Value, EvalError>
    ensures means { Gives view_of result locals.new world.new (linked (stops link.now.op (view_of value)) (link_in context.now link.now) span (view_of value) locals.old world.old) }
    ensures fewer { world.new.turn.steps ≤ world.old.turn.steps }
{
    if stops(link.op, &value) {
        return Ok(value);
    }
    let right = eval(context, world, locals, &link.right)?;
    answer(world, binary(context.alloc, link.op, &value, right), span)
}

#[cycle(eval)]
fn eval_bump(
    context: &Context,
    world: &mut World,
    locals: &mut Locals,
    bump: Bump,
) -> Result<Value, EvalError>
    ensures means { Gives view_of result locals.new world.new (bump_step (ground_of context.now) (calls_of context.now) context.now.owner.number bump.target bump.at bump.up bump.prefix bump.span locals.old world.old) }
    ensures fewer { world.new.turn.steps ≤ world.old.turn.steps }
{
    let old = context.read(world, locals, bump.target, bump.at)?;
    let new = answer(world, bumped(bump.up, &old), bump.span)?;
    let value = set(context, world, locals, bump.target, new.share()?, bump.at)?;
    drop(value);
    Ok(bump_value(bump.prefix, new, old))
}
