// What lists and objects are made of.
ghost use Rattle.std.specs.Prelude.{◌≡◌, ◌≤◌, [], map};
ghost use Rattle.sv_value.specs.View.{view_of, entry_of};
ghost use Rattle.sv_meaning.specs.Context.{item_in, field_in};
ghost use Rattle.sv_meaning.specs.Gives.{Gives};
ghost use Rattle.sv_meaning.specs.Values.{parts_after};

use crate::values::eval;
use sv_base::{Span, Text};
use sv_code::{CodeField, CodeItem};
use sv_meaning::{Context, EvalError, Locals, put_field, put_item, spread_entries, spread_items};
use sv_value::Value;
use sv_world::World;

/// The items that the parts of a list at a place put in it.
#[cycle(eval)]
pub(crate) fn eval_items(
    context: &Context,
    world: &mut World,
    locals: &mut Locals,
    span: Span,
    parts: &[CodeItem],
) -> Result<Vec<Value>, EvalError>
    ensures means { Gives (λ vs. map view_of vs.items) result locals.new world.new (parts_after span [] (map (item_in context.now) parts.now) locals.old world.old) }
    ensures fewer { world.new.turn.steps ≤ world.old.turn.steps }
{
    let mut made = Vec::new(context.alloc);
    for part in parts {
        eval_item(context, world, locals, span, part, &mut made)?;
    }
    Ok(made)
}

#[cycle(eval)]
fn eval_item(
    context: &Context,
    world: &mut World,
    locals: &mut Locals,
    span: Span,
    part: &CodeItem,
    made: &mut Vec<Value>,
) -> Result<(), EvalError>
    ensures means { Gives (λ _. map view_of made.new.items) result locals.new world.new (item_in context.now part.now span (map view_of made.old.items) locals.old world.old) }
    ensures fewer { world.new.turn.steps ≤ world.old.turn.steps }
{
    match part {
        CodeItem::One(code) => {
            let value = eval(context, world, locals, code)?;
            put_item(world, made, value, span)
        }
        CodeItem::Spread(code) => {
            let value = eval(context, world, locals, code)?;
            spread_items(world, made, &value, code.span)
        }
    }
}

/// The fields that the parts of an object at a place put in it.
#[cycle(eval)]
pub(crate) fn eval_fields(
    context: &Context,
    world: &mut World,
    locals: &mut Locals,
    span: Span,
    parts: &[CodeField],
) -> Result<Vec<(Text, Value)>, EvalError>
    ensures means { Gives (λ vs. map entry_of vs.items) result locals.new world.new (parts_after span [] (map (field_in context.now) parts.now) locals.old world.old) }
    ensures fewer { world.new.turn.steps ≤ world.old.turn.steps }
{
    let mut made = Vec::new(context.alloc);
    for part in parts {
        eval_field(context, world, locals, span, part, &mut made)?;
    }
    Ok(made)
}

#[cycle(eval)]
fn eval_field(
    context: &Context,
    world: &mut World,
    locals: &mut Locals,
    span: Span,
    part: &CodeField,
    made: &mut Vec<(Text, Value)>,
) -> Result<(), EvalError>
    ensures means { Gives (λ _. map entry_of made.new.items) result locals.new world.new (field_in context.now part.now span (map entry_of made.old.items) locals.old world.old) }
    ensures fewer { world.new.turn.steps ≤ world.old.turn.steps }
{
    match part {
        CodeField::Pair { key, value } => {
            let value = eval(context, world, locals, value)?;
            put_field(world, made, key, value, span)
        }
        CodeField::Spread(code) => {
            let value = eval(context, world, locals, code)?;
            spread_entries(world, made, &value, code.span)
        }
    }
}
