// `Math`, `String` and `Boolean`.
ghost use Rattle.std.specs.Prelude.{◌≡◌, map, Ok};
ghost use Rattle.sv_value.specs.View.{view_of};
ghost use Rattle.sv_ops.specs.Math as spec;
ghost use Rattle.sv_ops.specs.Answers.{Answers};

use crate::faults::{FaultKind, OpError};
use crate::given::Given;
use crate::make::spell;
use crate::numbers::checked;
use crate::texts::text_or_fault;
use std::alloc::Global;
use sv_base::Num;
use sv_value::{Value, truthy};

/// `Math.abs`; `NotANumber` exactly where the value isn't a number.
pub fn absolute(value: &Value) -> Result<Given, OpError>
    ensures { Answers result (spec.absolute (view_of value.now)) }
{
    match value {
        Value::Num(n) => checked(n.get().abs()),
        _ => Err(OpError::Fault(FaultKind::NotANumber)),
    }
}

/// `Math.floor` and `Math.trunc` of a whole number; `NotANumber` exactly where the value isn't one.
pub fn rounded(value: &Value) -> Result<Given, OpError>
    ensures { Answers result (spec.rounded (view_of value.now)) }
{
    match value {
        Value::Num(n) => Ok(Given::free(Value::Num(*n))),
        _ => Err(OpError::Fault(FaultKind::NotANumber)),
    }
}

/// `Math.min`; `NotANumber` exactly where there is no value, or one isn't a number.
pub fn least(values: &[Value]) -> Result<Given, OpError>
    ensures { Answers result (spec.least (map view_of values.now)) }
{
    best(false, values)
}

/// `Math.max`; `NotANumber` exactly where there is no value, or one isn't a number.
pub fn greatest(values: &[Value]) -> Result<Given, OpError>
    ensures { Answers result (spec.greatest (map view_of values.now)) }
{
    best(true, values)
}

fn best(greatest: bool, values: &[Value]) -> Result<Given, OpError>
    ensures { Answers result (spec.best (spec.order greatest) (map view_of values.now)) }
{
    let [Value::Num(first), rest @ ..] = values else {
        return Err(OpError::Fault(FaultKind::NotANumber));
    };
    best_from(greatest, *first, rest)
}

fn best_from(greatest: bool, first: Num, values: &[Value]) -> Result<Given, OpError>
    ensures { Answers result (spec.best_from (spec.order greatest) first (map view_of values.now)) }
{
    let mut best = first;
    for value in values {
        let Value::Num(n) = value else {
            return Err(OpError::Fault(FaultKind::NotANumber));
        };
        if comes_before(greatest, *n, best) {
            best = *n;
        }
    }
    Ok(Given::free(Value::Num(best)))
}

fn comes_before(greatest: bool, n: Num, best: Num) -> bool
    ensures { result ≡ spec.order greatest n best }
{
    if greatest {
        best.get() <= n.get()
    } else {
        n.get() <= best.get()
    }
}

/// `String`, which costs the text's bytes; `NotText` exactly where the value has no text.
pub fn to_text(alloc: Global, value: &Value) -> Result<Given, OpError>
    ensures { Answers result (spec.to_text (view_of value.now)) }
{
    let text = text_or_fault(alloc, value)?;
    spell(alloc, 0, text.as_str())
}

/// `Boolean`.
pub fn to_boolean(value: &Value) -> Given
    ensures { Answers (Ok result) (spec.to_boolean (view_of value.now)) }
{
    Given::free(Value::Bool(truthy(value)))
}
