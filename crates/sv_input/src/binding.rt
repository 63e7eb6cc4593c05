// Variables that follow inputs.
ghost use Rattle.std.specs.Prelude.{◌≡◌, false};
ghost use Rattle.sv_value.specs.View.{view_of};
ghost use Rattle.sv_input.specs.Binding as spec;
ghost use Rattle.sv_input.specs.Delivery.{seen};
ghost use Rattle.sv_input.specs.Number.{number_or_null};
ghost use Rattle.sv_meaning.specs.Gives.{EndsAs};
ghost use Rattle.sv_ops.specs.Answers.{Answers};

use crate::delivery::{Delivery, Desk};
use crate::number::number_in;
use sv_base::Text;
use sv_code::Arrows;
use sv_document::Binding;
use sv_eval::set;
use sv_meaning::{CALL_LIMIT, Context, EvalError, Locals, answer};
use sv_ops::{Given, OpError, text_value};
use sv_value::{Inst, Value};
use sv_world::World;

// The variable of a binding of an instance is assigned a value, and derived stores settle.
fn assign(
    desk: &Desk,
    world: &mut World,
    inst: Inst,
    binding: Binding,
    value: Value,
) -> Result<(), EvalError>
    ensures { EndsAs (λ u. u) result world.new (spec.assigned desk.now.program.now inst.number binding (view_of value) world.old) }
{
    let context = Context {
        alloc: desk.alloc,
        program: desk.program,
        sight: None,
        arrows: Arrows { from: 0, to: 0 },
        is_own: false,
        owner: inst,
        room: CALL_LIMIT,
    };
    let mut locals = Locals::new(desk.alloc);
    set(
        &context,
        world,
        &mut locals,
        binding.target,
        value,
        binding.span,
    )?;
    Ok(())
}

// The number that a text writes, as a value, or `null`.
fn number_value(text: &Text) -> Value
    ensures { view_of result ≡ number_or_null text.now }
{
    match number_in(text.as_str()) {
        Some(number) => Value::Num(number),
        None => Value::Null,
    }
}

// What a typed text is as a value.
fn typed_value(numbers: bool, text: &Text) -> Result<Given, OpError>
    ensures { Answers result (spec.typed_value numbers text.now) }
{
    if !numbers {
        return text_value(text);
    }
    Ok(Given {
        value: number_value(text),
        cost: 0,
    })
}

/// What `bind:value` does where its element is the target or not: the variable is assigned the text of an `input` event, or for an
/// input of numbers the number or `null`.
pub fn tell_value(
    delivery: &Delivery,
    world: &mut World,
    here: bool,
    inst: Inst,
    binding: Binding,
) -> Result<(), EvalError>
    ensures { EndsAs (λ u. u) result world.new (spec.value_told (seen delivery.now) here inst.number binding world.old) }
{
    let desk = delivery.desk;
    match &desk.event.value {
        Some(text) if here && desk.event.name.as_str() == "input" => {
            let given = typed_value(delivery.target.is_number_kind(), text);
            let value = answer(world, given, binding.span)?;
            assign(desk, world, inst, binding, value)
        }
        _ => Ok(()),
    }
}

/// What `bind:checked` does where its element is the target or not: the variable is assigned whether the box is checked, as a `change`
/// event tells.
pub fn tell_check(
    delivery: &Delivery,
    world: &mut World,
    here: bool,
    inst: Inst,
    binding: Binding,
) -> Result<(), EvalError>
    ensures { EndsAs (λ u. u) result world.new (spec.check_told (seen delivery.now) here inst.number binding world.old) }
{
    let desk = delivery.desk;
    match desk.event.checked {
        Some(checked) if here && desk.event.name.as_str() == "change" => {
            assign(desk, world, inst, binding, Value::Bool(checked))
        }
        _ => Ok(()),
    }
}
