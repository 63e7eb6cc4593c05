// What is put into lists and objects, members, and the functions that arrows make.
ghost use Rattle.std.specs.Prelude.{◌≡◌, ◌≤◌, ◌++◌, map, length, IfOk, option_map, slice_get, []};
ghost use Rattle.sv_ops.specs.Members.{or_undefined};
ghost use Rattle.sv_value.specs.Object.{get};
ghost use Rattle.sv_value.specs.View.{view_of, entry_of};
ghost use Rattle.sv_ops.specs.Members.{spread, spread_fields};
ghost use Rattle.sv_ops.specs.Answers.{Answers};
ghost use Rattle.sv_meaning.specs.Context.{ground_of};
ghost use Rattle.sv_meaning.specs.Gives.{EndsAs};
ghost use Rattle.sv_meaning.specs.Values.{put_one, put_all, texted_at, member_of, word_of, arrow, captured_after};
ghost use Rattle.sv_world.specs.declared.world.World.{World as Worlds};

use crate::context::Context;
use crate::counting::{fault, spend};
use crate::errors::EvalError;
use crate::locals::Locals;
use std::alloc::Global;
use sv_base::{Name, NoMemory, Span, Text};
use sv_code::{Method, Property};
use sv_ops::{
    FaultKind, Given, OpError, function_of, length, member, put_fields, put_items, text_or_fault,
};
use sv_value::{Obj, Value};
use sv_world::World;

/// Puts an item behind others, which takes a step.
pub fn put_item(
    world: &mut World,
    made: &mut Vec<Value>,
    value: Value,
    span: Span,
) -> Result<(), EvalError>
    ensures means { EndsAs (λ _. map view_of made.new.items) result world.new (put_one span (map view_of made.old.items) (view_of value) world.old) }
    ensures fewer { world.new.turn.steps ≤ world.old.turn.steps }
{
    spend(world, 1, span)?;
    made.push(value)?;
    Ok(())
}

/// Puts a field behind others, which takes a step.
pub fn put_field(
    world: &mut World,
    made: &mut Vec<(Text, Value)>,
    key: &Text,
    value: Value,
    span: Span,
) -> Result<(), EvalError>
    ensures means { EndsAs (λ _. map entry_of made.new.items) result world.new (put_one span (map entry_of made.old.items) (key.now, view_of value) world.old) }
    ensures fewer { world.new.turn.steps ≤ world.old.turn.steps }
{
    spend(world, 1, span)?;
    let key = key.share()?;
    made.push((key, value))?;
    Ok(())
}

/// Puts the items of a list behind others, each of which takes a step; `NotAList` exactly where the value is none.
pub fn spread_items(
    world: &mut World,
    made: &mut Vec<Value>,
    value: &Value,
    span: Span,
) -> Result<(), EvalError>
    ensures means { EndsAs (λ _. map view_of made.new.items) result world.new (put_all (spread (view_of value.now)) span (map view_of made.old.items) world.old) }
    ensures fewer { world.new.turn.steps ≤ world.old.turn.steps }
{
    let before = made.len();
    match put_items(made, value) {
        Ok(()) => spend(world, made.len() - before, span),
        Err(OpError::Fault(kind)) => Err(fault(kind, span)),
        Err(OpError::NoMemory) => Err(EvalError::NoMemory),
    }
}

/// Puts the fields of an object behind others, each of which takes a step; `undefined` and `null` have none, and another value is `NoMember`.
pub fn spread_entries(
    world: &mut World,
    made: &mut Vec<(Text, Value)>,
    value: &Value,
    span: Span,
) -> Result<(), EvalError>
    ensures means { EndsAs (λ _. map entry_of made.new.items) result world.new (put_all (spread_fields (view_of value.now)) span (map entry_of made.old.items) world.old) }
    ensures fewer { world.new.turn.steps ≤ world.old.turn.steps }
{
    let before = made.len();
    match put_fields(made, value) {
        Ok(()) => spend(world, made.len() - before, span),
        Err(OpError::Fault(kind)) => Err(fault(kind, span)),
        Err(OpError::NoMemory) => Err(EvalError::NoMemory),
    }
}

/// The text of a value; `NotText` at the place exactly where it has none.
pub fn text_at(alloc: Global, value: &Value, span: Span) -> Result<Text, EvalError>
    ensures { (w : Worlds) → EndsAs (λ t. t) result w (texted_at span (view_of value.now) w) }
{
    match text_or_fault(alloc, value) {
        Ok(text) => Ok(text),
        Err(OpError::Fault(kind)) => Err(fault(kind, span)),
        Err(OpError::NoMemory) => Err(EvalError::NoMemory),
    }
}

impl Context<'_> {
    // The text of a property's word.
    fn word(&self, property: Property) -> &str
        ensures { result.now ≡ word_of (ground_of self.now) property }
    {
        match self.program.names.text(property.name) {
            Some(word) => word,
            None => "",
        }
    }

    /// The member of a value.
    pub fn member(&self, value: &Value, property: Property) -> Result<Given, OpError>
        ensures { Answers result (member_of property.method (view_of value.now) (word_of (ground_of self.now) property)) }
    {
        let word = self.word(property);
        match property.method {
            Some(Method::Length) => length(value, word),
            _ => member(value, word),
        }
    }

    /// The field of an object that a property names, undefined where it has none.
    pub fn field(&self, object: &Obj, property: Property) -> Result<Value, NoMemory>
        ensures { IfOk result (λ v. view_of v ≡ or_undefined (get object.now (word_of (ground_of self.now) property))) }
    {
        match object.get(self.word(property)) {
            Some(value) => value.share(),
            None => Ok(Value::Undefined),
        }
    }

    /// The function that an arrow makes: `UseBeforeInit` exactly where a name that it takes along has no value, or else `Deep` or `Large`. A
    /// number that the program hasn't gives undefined.
    pub fn make_arrow(&self, locals: &Locals, code: u32) -> Result<Given, OpError>
        ensures { Answers result (arrow (slice_get self.now.program.now.functions code) code self.now.owner.number locals.now) }
    {
        let Some(function) = self.program.functions.as_slice().get(code as usize) else {
            return Ok(Given {
                value: Value::Undefined,
                cost: 0,
            });
        };
        let Some(held) = capture(self.alloc, function.captured.as_slice(), locals)? else {
            return Err(OpError::Fault(FaultKind::UseBeforeInit));
        };
        function_of(self.alloc, code, self.owner, held)
    }
}

// The values of names, or none where one has none.
fn capture(alloc: Global, names: &[Name], locals: &Locals) -> Result<Option<Vec<Value>>, NoMemory>
    ensures { IfOk result (λ held. option_map (λ vs. map view_of vs.items) held ≡ captured_after [] names.now locals.now) }
{
    let mut held = Vec::new(alloc);
    for name in names {
        let Some(value) = locals.get(*name) else {
            return Ok(None);
        };
        held.push(value.share()?)?;
    }
    Ok(Some(held))
}
