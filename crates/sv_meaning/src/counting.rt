// Steps, faults and answers.
ghost use Rattle.std.specs.Prelude.{◌≡◌, ◌<◌, ◌≤◌, OnOk};
ghost use Rattle.sv_value.specs.View.{view_of};
ghost use Rattle.sv_ops.specs.Answer.{Answer};
ghost use Rattle.sv_ops.specs.Answers.{Answers};
ghost use Rattle.sv_world.specs.declared.world.World.{World as WorldRecord};
ghost use Rattle.sv_meaning.specs.Counts.{Counts};
ghost use Rattle.sv_meaning.specs.Gives.{EndsAs, assigned_at};
ghost use Rattle.sv_meaning.specs.Outcome.{Ends, spent, answered, with_steps};

use crate::errors::EvalError;
use sv_base::Span;
use sv_ops::{Fault, FaultKind, Given, OpError};
use sv_states::AssignError;
use sv_value::Value;
use sv_world::World;

/// A fault at a place.
pub fn fault(kind: FaultKind, span: Span) -> EvalError
    ensures { result ≡ EvalError.Fault (record { kind = kind; span = span }) }
{
    EvalError::Fault(Fault { kind, span })
}

/// Takes a step; `Steps` at the place exactly where none is left.
pub fn count(world: &mut World, span: Span) -> Result<(), EvalError>
    ensures counts { Counts result span world.old world.new }
    ensures taken { OnOk result (world.new.turn.steps < world.old.turn.steps) }
    ensures fewer { world.new.turn.steps ≤ world.old.turn.steps }
{
    if world.turn.step() {
        Ok(())
    } else {
        Err(fault(FaultKind::Steps, span))
    }
}

/// Takes so many steps; `Steps` at the place, and none are taken, exactly where not so many are left.
pub fn spend(world: &mut World, steps: usize, span: Span) -> Result<(), EvalError>
    ensures spends { EndsAs (λ u. u) result world.new (spent steps span (Ends tt) world.old) }
    ensures fewer { world.new.turn.steps ≤ world.old.turn.steps }
{
    if world.turn.spend(steps) {
        Ok(())
    } else {
        Err(fault(FaultKind::Steps, span))
    }
}

/// What an operation at a place gives, once its steps are taken.
pub fn answer(
    world: &mut World,
    given: Result<Given, OpError>,
    span: Span,
) -> Result<Value, EvalError>
    ensures answers { (a : Answer) → Answers given a → EndsAs view_of result world.new (answered span a world.old) }
    ensures fewer { world.new.turn.steps ≤ world.old.turn.steps }
{
    match given {
        Ok(Given { value, cost }) => {
            spend(world, cost, span)?;
            Ok(value)
        }
        Err(OpError::Fault(kind)) => Err(fault(kind, span)),
        Err(OpError::NoMemory) => Err(EvalError::NoMemory),
    }
}

/// What an assignment at a place answers: `NoMember` exactly where a derived store would be set, and `NotAStore` exactly where a `$` name
/// would be assigned that looks at no store, or a variable with a `$` name would get what is neither a store nor nothing.
pub fn assigned(given: Result<(), AssignError>, span: Span) -> Result<(), EvalError>
    ensures { result ≡ assigned_at span given }
{
    match given {
        Ok(()) => Ok(()),
        Err(AssignError::ReadOnly) => Err(fault(FaultKind::NoMember, span)),
        Err(AssignError::NotAStore) => Err(fault(FaultKind::NotAStore, span)),
        Err(AssignError::NoMemory) => Err(EvalError::NoMemory),
    }
}
