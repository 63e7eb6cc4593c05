// How derived stores are computed.
ghost use Rattle.std.specs.Prelude.{◌≡◌, ◌∷◌, [], map, length, IfOk, IfSome, option_map};
ghost use Rattle.sv_derived.specs.Order.{AreBelow};
ghost use Rattle.sv_ops.specs.Answers.{Answers};
ghost use Rattle.sv_ops.specs.declared.faults.FaultKind.TheVariants.{NotAStore};
ghost use Rattle.sv_value.specs.View.{view_of};
ghost use Rattle.sv_world.specs.declared.world.World.{World as Worlds};
ghost use Rattle.sv_meaning.specs.Calls.{recipe_in};
ghost use Rattle.sv_meaning.specs.Computes.{Computes};
ghost use Rattle.sv_meaning.specs.Derived.{input_values, handed};
ghost use Rattle.sv_meaning.specs.Gives.{EndsAs};
ghost use Rattle.sv_meaning.specs.Outcome.{given};
ghost use Rattle.sv_meaning.specs.Settling.{input_in, inputs_after};
ghost use Rattle.sv_meaning.specs.Sources.{source_of};

use crate::calls::{first, second, store_value};
use crate::counting::fault;
use crate::errors::EvalError;
use crate::listening::source_of;
use std::alloc::Global;
use sv_base::{NoMemory, Span};
use sv_code::Program;
use sv_derived::Recipe;
use sv_ops::{FaultKind, Given, OpError, list_of};
use sv_value::{Inst, Value};
use sv_world::World;

/// What the computation of a derived store wants: who made it, what its function is handed, the function, and where that is written.
#[derive(Drop)]
pub struct Computation {
    pub owner: Inst,
    pub argument: Result<Given, OpError>,
    pub function: Value,
    pub span: Span,
}

/// The recipe that a call of `derived` gives, whose stores were all made; `NotAStore` exactly where the first argument isn't a store, nor a list
/// of stores.
pub fn recipe_of(
    alloc: Global,
    program: &Program,
    world: &World,
    args: &[Value],
    span: Span,
) -> Result<Recipe, EvalError>
    ensures means { (w : Worlds) → EndsAs (λ r. r) result w (given NotAStore span (recipe_in program.now span (map view_of args.now) world.now.states.stores) w) }
    ensures made { IfOk result (λ r. AreBelow r.inputs (length world.now.states.stores)) }
{
    let source = first(args)?;
    let (inputs, takes_list) = match &source {
        Value::List(list) => (inputs_of(alloc, world, list.items())?, true),
        only => (input_alone(alloc, world, only)?, false),
    };
    let Some(inputs) = inputs else {
        return Err(fault(FaultKind::NotAStore, span));
    };
    let function = second(args)?;
    let at = source_of(program, &function, span);
    Ok(Recipe {
        inputs,
        takes_list,
        function,
        span: at,
    })
}

// The number of a store that was made.
fn input_of(world: &World, value: &Value) -> Option<u32>
    ensures { result ≡ input_in world.now.states.stores (view_of value.now) }
{
    let Value::Store(id) = value else {
        return None;
    };
    world.states.store_value(*id)?;
    Some(*id)
}

// The number of a store, alone.
fn input_alone(alloc: Global, world: &World, value: &Value) -> Result<Option<Vec<u32>>, NoMemory>
    ensures input { IfOk result (λ ids. option_map (λ v. v.items) ids ≡ option_map (λ id. id ∷ []) (input_in world.now.states.stores (view_of value.now))) }
    ensures made { IfOk result (λ ids. IfSome ids (λ v. AreBelow v.items (length world.now.states.stores))) }
{
    let Some(id) = input_of(world, value) else {
        return Ok(None);
    };
    let mut alone = Vec::new(alloc);
    alone.push(id)?;
    Ok(Some(alone))
}

// The numbers of stores, where each value is one.
fn inputs_of(alloc: Global, world: &World, values: &[Value]) -> Result<Option<Vec<u32>>, NoMemory>
    ensures inputs { IfOk result (λ ids. option_map (λ v. v.items) ids ≡ inputs_after [] world.now.states.stores (map view_of values.now)) }
    ensures made { IfOk result (λ ids. IfSome ids (λ v. AreBelow v.items (length world.now.states.stores))) }
{
    let mut ids = Vec::new(alloc);
    for value in values {
        let Some(id) = input_of(world, value) else {
            return Ok(None);
        };
        ids.push(id)?;
    }
    Ok(Some(ids))
}

/// What the computation of a derived store that somebody made wants, on its inputs' present values.
pub fn computation_of(
    alloc: Global,
    world: &World,
    owner: Inst,
    recipe: &Recipe,
) -> Result<Computation, NoMemory>
    ensures { IfOk result (λ c. Computes c owner.number recipe.now world.now.states.stores) }
{
    Ok(Computation {
        owner,
        argument: handed(alloc, world, recipe),
        function: recipe.function.share()?,
        span: recipe.span,
    })
}

// What the function of a derived store is handed.
fn handed(alloc: Global, world: &World, recipe: &Recipe) -> Result<Given, OpError>
    ensures { Answers result (handed recipe.now.takes_list (input_values world.now.states.stores recipe.now.inputs)) }
{
    let mut values = Vec::new(alloc);
    for id in recipe.inputs.as_slice() {
        values.push(store_value(world, *id)?)?;
    }
    if recipe.takes_list {
        return list_of(alloc, values);
    }
    Ok(Given {
        value: first(&values)?,
        cost: 0,
    })
}
