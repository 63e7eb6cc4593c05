// Equality.
ghost use Rattle.std.specs.Prelude.{◌≡◌, if◌then◌else◌};
ghost use Rattle.sv_value.specs.View.{view_of};
ghost use Rattle.sv_ops.specs.Compare as spec;
ghost use Rattle.sv_ops.specs.Answers.{Answers, TellsEquality};

use crate::faults::{FaultKind, OpError};
use crate::given::Given;
use sv_value::Value;

/// Whether two values are equal, and what telling it costs; `None` for two lists, two objects or two functions.
pub(crate) fn equality(a: &Value, b: &Value) -> Option<(bool, usize)>
    ensures { TellsEquality result (spec.equality (view_of a.now) (view_of b.now)) }
{
    match (a, b) {
        (Value::Undefined, Value::Undefined) | (Value::Null, Value::Null) => Some((true, 0)),
        (Value::Bool(a), Value::Bool(b)) => Some((*a == *b, 0)),
        (Value::Num(a), Value::Num(b)) => Some((a.get() == b.get(), 0)),
        (Value::Text(a), Value::Text(b)) => {
            let (a, b) = (a.as_str(), b.as_str());
            Some((a == b, a.len()))
        }
        (Value::Store(a), Value::Store(b)) => Some((*a == *b, 0)),
        (Value::List(_), Value::List(_))
        | (Value::Obj(_), Value::Obj(_))
        | (Value::Func(_), Value::Func(_)) => None,
        _ => Some((false, 0)),
    }
}

/// `===`, or `!==` where `turned`: `CompareObjects` exactly for two lists, two objects and two functions.
pub fn same(turned: bool, a: &Value, b: &Value) -> Result<Given, OpError>
    ensures { Answers result (if turned then spec.not_same (view_of a.now) (view_of b.now) else spec.same (view_of a.now) (view_of b.now)) }
{
    match equality(a, b) {
        Some((same, cost)) => Ok(Given {
            value: Value::Bool(same != turned),
            cost,
        }),
        None => Err(OpError::Fault(FaultKind::CompareObjects)),
    }
}

/// Whether a value is `undefined` or `null`.
pub fn is_nullish(value: &Value) -> bool
    ensures { result ≡ spec.is_nullish (view_of value.now) }
{
    matches!(value, Value::Undefined | Value::Null)
}
