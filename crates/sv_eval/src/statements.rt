// Statements.
ghost use Rattle.std.specs.Prelude.{◌≡◌, ◌≤◌, map, suc, option_map, option_copied};
ghost use Rattle.sv_value.specs.View.{view_of};
ghost use Rattle.sv_meaning.specs.Context.{value_in, run_in, doing_in, arm_in, decl_in, valued_in};
ghost use Rattle.sv_meaning.specs.Env.{opened};
ghost use Rattle.sv_meaning.specs.Gives.{Gives, flow_of};
ghost use Rattle.sv_meaning.specs.Outcome.{Next};
ghost use Rattle.sv_meaning.specs.Statements.{does, in_order, first_of, scoped, for_step, each_step, turns, over_list, item_turns, item_turn, otherwise};

use crate::lookups::takes_step;
use crate::values::{eval, eval_or, eval_test};
use sv_base::{Name, Span};
use sv_code::{Code, CodeArm, CodeDecl, CodeStmt, CodeStmtKind};
use sv_meaning::{Context, End, EvalError, Locals, count, fault, give_name};
use sv_ops::FaultKind;
use sv_value::{Value, truthy};
use sv_world::World;

/// The parts of a loop.
#[derive(Drop)]
struct Loop<'a> {
    test: Option<&'a Code>,
    next: Option<&'a Code>,
    body: &'a CodeStmt,
}

/// How a statement ends.
#[cycle(eval)]
pub fn run(
    context: &Context,
    world: &mut World,
    locals: &mut Locals,
    stmt: &CodeStmt,
) -> Result<End, EvalError>
    ensures means { Gives flow_of result locals.new world.new (run_in context.now stmt.now locals.old world.old) }
    ensures fewer { world.new.turn.steps ≤ world.old.turn.steps }
{
    let kind = stmt.kind.get();
    if !takes_step(kind) {
        return Ok(End::Next);
    }
    count(world, stmt.span)?;
    run_kind(context, world, locals, stmt.span, kind)
}

#[cycle(eval)]
fn run_kind(
    context: &Context,
    world: &mut World,
    locals: &mut Locals,
    span: Span,
    kind: &CodeStmtKind,
) -> Result<End, EvalError>
    ensures means { Gives flow_of result locals.new world.new (does (doing_in context.now kind.now) span locals.old world.old) }
    ensures fewer { world.new.turn.steps ≤ world.old.turn.steps }
{
    match kind {
        CodeStmtKind::Empty
        | CodeStmtKind::Import(_)
        | CodeStmtKind::React(_)
        | CodeStmtKind::Function { .. } => Ok(End::Next),
        CodeStmtKind::Block { declares, stmts } => run_block(
            context,
            world,
            locals,
            declares.as_slice(),
            stmts.as_slice(),
        ),
        CodeStmtKind::Let(decls)
        | CodeStmtKind::Export(decls)
        | CodeStmtKind::Const { decls, .. } => declare_all(
            context,
            world,
            locals,
            decls.as_slice(),
        ),
        CodeStmtKind::If { arms, last } => run_if(context, world, locals, arms.as_slice(), last),
        CodeStmtKind::While { test, body } => {
            let turn = Loop {
                test: Some(test),
                next: None,
                body,
            };
            run_loop(context, world, locals, span, &turn)
        }
        CodeStmtKind::For {
            declares,
            first,
            test,
            next,
            body,
        } => {
            let turn = Loop {
                test: test.as_ref(),
                next: next.as_ref(),
                body,
            };
            run_for(
                context,
                world,
                locals,
                span,
                declares.as_slice(),
                first,
                &turn,
            )
        }
        CodeStmtKind::Each {
            name,
            list,
            body,
            ..
        } => run_each(context, world, locals, span, name.name, list, body),
        CodeStmtKind::Break => Ok(End::Broken),
        CodeStmtKind::Continue => Ok(End::Continued),
        CodeStmtKind::Return(value) => {
            let value = eval_or(context, world, locals, value.as_ref())?;
            Ok(End::Returned(value))
        }
        CodeStmtKind::Eval(code) => {
            let value = eval(context, world, locals, code)?;
            drop(value);
            Ok(End::Next)
        }
    }
}

/// How statements end, one after another.
#[cycle(eval)]
pub(crate) fn run_all(
    context: &Context,
    world: &mut World,
    locals: &mut Locals,
    stmts: &[CodeStmt],
) -> Result<End, EvalError>
    ensures means { Gives flow_of result locals.new world.new (in_order (map (run_in context.now) stmts.now) locals.old world.old) }
    ensures fewer { world.new.turn.steps ≤ world.old.turn.steps }
{
    for stmt in stmts {
        let end = run(context, world, locals, stmt)?;
        if !matches!(end, End::Next) {
            return Ok(end);
        }
    }
    Ok(End::Next)
}

#[cycle(eval)]
fn run_block(
    context: &Context,
    world: &mut World,
    locals: &mut Locals,
    declares: &[Name],
    stmts: &[CodeStmt],
) -> Result<End, EvalError>
    ensures means { Gives flow_of result locals.new world.new (scoped (opened declares.now) (in_order (map (run_in context.now) stmts.now)) locals.old world.old) }
    ensures fewer { world.new.turn.steps ≤ world.old.turn.steps }
{
    let open = locals.len();
    locals.open_all(declares)?;
    let end = run_all(context, world, locals, stmts)?;
    locals.truncate(open);
    Ok(end)
}

/// Names that are declared together get their values, one after another.
#[cycle(eval)]
pub(crate) fn declare_all(
    context: &Context,
    world: &mut World,
    locals: &mut Locals,
    decls: &[CodeDecl],
) -> Result<End, EvalError>
    ensures means { Gives flow_of result locals.new world.new (in_order (map (decl_in context.now) decls.now) locals.old world.old) }
    ensures fewer { world.new.turn.steps ≤ world.old.turn.steps }
{
    for decl in decls {
        declare_one(context, world, locals, decl)?;
    }
    Ok(End::Next)
}

#[cycle(eval)]
fn declare_one(
    context: &Context,
    world: &mut World,
    locals: &mut Locals,
    decl: &CodeDecl,
) -> Result<(), EvalError>
    ensures means { Gives (λ _. Next) result locals.new world.new (decl_in context.now decl.now locals.old world.old) }
    ensures fewer { world.new.turn.steps ≤ world.old.turn.steps }
{
    let value = eval_or(context, world, locals, decl.first.as_ref())?;
    give_name(locals, decl.target, value);
    Ok(())
}

#[cycle(eval)]
fn run_if(
    context: &Context,
    world: &mut World,
    locals: &mut Locals,
    arms: &[CodeArm],
    last: &Option<CodeStmt>,
) -> Result<End, EvalError>
    ensures means { Gives flow_of result locals.new world.new (first_of (map (arm_in context.now) arms.now) (option_map (run_in context.now) last.now) locals.old world.old) }
    ensures fewer { world.new.turn.steps ≤ world.old.turn.steps }
{
    for arm in arms {
        let test = eval(context, world, locals, &arm.test)?;
        if truthy(&test) {
            return run(context, world, locals, &arm.body);
        }
    }
    run_or(context, world, locals, last)
}

// How a statement ends, if there is one.
#[cycle(eval)]
fn run_or(
    context: &Context,
    world: &mut World,
    locals: &mut Locals,
    stmt: &Option<CodeStmt>,
) -> Result<End, EvalError>
    ensures means { Gives flow_of result locals.new world.new (otherwise (option_map (run_in context.now) stmt.now) locals.old world.old) }
    ensures fewer { world.new.turn.steps ≤ world.old.turn.steps }
{
    match stmt {
        Some(stmt) => run(context, world, locals, stmt),
        None => Ok(End::Next),
    }
}

#[cycle(eval)]
fn run_for(
    context: &Context,
    world: &mut World,
    locals: &mut Locals,
    span: Span,
    declares: &[Name],
    first: &Option<CodeStmt>,
    turn: &Loop,
) -> Result<End, EvalError>
    ensures means { Gives flow_of result locals.new world.new (for_step span (opened declares.now) (option_map (run_in context.now) first.now) (valued_in context.now (option_copied turn.now.test)) (valued_in context.now (option_copied turn.now.next)) (run_in context.now turn.now.body.now) locals.old world.old) }
    ensures fewer { world.new.turn.steps ≤ world.old.turn.steps }
{
    let open = locals.len();
    locals.open_all(declares)?;
    let begun = run_or(context, world, locals, first)?;
    drop(begun);
    let end = run_loop(context, world, locals, span, turn)?;
    locals.truncate(open);
    Ok(end)
}

/// A `while` or a `for`; each turn takes a step at least, so that there is a turn for each step that is left at most.
#[cycle(eval)]
fn run_loop(
    context: &Context,
    world: &mut World,
    locals: &mut Locals,
    span: Span,
    turn: &Loop,
) -> Result<End, EvalError>
    ensures means { Gives flow_of result locals.new world.new (turns (suc world.old.turn.steps) span (valued_in context.now (option_copied turn.now.test)) (valued_in context.now (option_copied turn.now.next)) (run_in context.now turn.now.body.now) locals.old world.old) }
    ensures fewer { world.new.turn.steps ≤ world.old.turn.steps }
{
    for _ in 0..u64::from(world.turn.steps()) + 1 {
        if !eval_test(context, world, locals, turn.test)? {
            return Ok(End::Next);
        }
        match run(context, world, locals, turn.body)? {
            End::Next | End::Continued => {}
            End::Broken => return Ok(End::Next),
            End::Returned(value) => return Ok(End::Returned(value)),
        }
        let value = eval_or(context, world, locals, turn.next)?;
        drop(value);
    }
    Err(fault(FaultKind::Steps, span))
}

/// A `for` over a list; `NotAList` exactly where it is none.
#[cycle(eval)]
fn run_each(
    context: &Context,
    world: &mut World,
    locals: &mut Locals,
    span: Span,
    name: Name,
    list: &Code,
    body: &CodeStmt,
) -> Result<End, EvalError>
    ensures means { Gives flow_of result locals.new world.new (each_step span name (value_in context.now list.now) (run_in context.now body.now) locals.old world.old) }
    ensures fewer { world.new.turn.steps ≤ world.old.turn.steps }
{
    let open = locals.len();
    locals.open_all(&[name])?;
    let list = eval(context, world, locals, list)?;
    locals.truncate(open);
    let Value::List(list) = &list else {
        return Err(fault(FaultKind::NotAList, span));
    };
    run_items(context, world, locals, name, list.items(), body)
}

#[cycle(eval)]
fn run_items(
    context: &Context,
    world: &mut World,
    locals: &mut Locals,
    name: Name,
    items: &[Value],
    body: &CodeStmt,
) -> Result<End, EvalError>
    ensures means { Gives flow_of result locals.new world.new (item_turns name (map view_of items.now) (run_in context.now body.now) locals.old world.old) }
    ensures fewer { world.new.turn.steps ≤ world.old.turn.steps }
{
    for item in items {
        match run_item(context, world, locals, name, item, body)? {
            End::Next | End::Continued => {}
            End::Broken => return Ok(End::Next),
            End::Returned(value) => return Ok(End::Returned(value)),
        }
    }
    Ok(End::Next)
}

#[cycle(eval)]
fn run_item(
    context: &Context,
    world: &mut World,
    locals: &mut Locals,
    name: Name,
    item: &Value,
    body: &CodeStmt,
) -> Result<End, EvalError>
    ensures means { Gives flow_of result locals.new world.new (item_turn name (view_of item.now) (run_in context.now body.now) locals.old world.old) }
    ensures fewer { world.new.turn.steps ≤ world.old.turn.steps }
{
    let open = locals.len();
    locals.push(name, item.share()?)?;
    let end = run(context, world, locals, body)?;
    locals.truncate(open);
    Ok(end)
}
