// Operators between two values.
ghost use Rattle.std.specs.Prelude.{◌≡◌, ◌++◌};
ghost use Rattle.sv_value.specs.View.{view_of};
ghost use Rattle.sv_ops.specs.Operators as spec;
ghost use Rattle.sv_ops.specs.Numbers.{compared};
ghost use Rattle.sv_ops.specs.Answers.{Answers};

use crate::compare::{is_nullish, same};
use crate::faults::{FaultKind, OpError};
use crate::given::Given;
use crate::numbers::{checked, difference, product, quotient, remainder};
use crate::texts::{joined_two, text_or_fault};
use std::alloc::Global;
use sv_ast::{AssignOp, Op};
use sv_value::{Value, truthy};

/// `+`: the sum of two numbers, or the two texts joined where a side is one. `NotANumber`, `Range`, `NotText` and `Large` as they apply.
fn plus(alloc: Global, a: &Value, b: &Value) -> Result<Given, OpError>
    ensures { Answers result (spec.plus (view_of a.now) (view_of b.now)) }
{
    match (a, b) {
        (Value::Num(a), Value::Num(b)) => checked(a.get() + b.get()),
        (Value::Text(a), _) => {
            let b = text_or_fault(alloc, b)?;
            joined_two(alloc, a.as_str(), b.as_str())
        }
        (_, Value::Text(b)) => {
            let a = text_or_fault(alloc, a)?;
            joined_two(alloc, a.as_str(), b.as_str())
        }
        _ => Err(OpError::Fault(FaultKind::NotANumber)),
    }
}

/// The value of an operator at both sides; of one that may stop at its left side it is the right one, and `/` is rounded towards 0.
pub fn binary(alloc: Global, op: Op, a: &Value, b: Value) -> Result<Given, OpError>
    ensures { Answers result (spec.binary op (view_of a.now) (view_of b)) }
{
    match op {
        Op::Nullish | Op::Or | Op::And => Ok(Given::free(b)),
        Op::Same => same(false, a, &b),
        Op::NotSame => same(true, a, &b),
        Op::Equal => Ok(Given::free(Value::Bool(is_nullish(a) && is_nullish(&b)))),
        Op::NotEqual => Ok(Given::free(Value::Bool(!(is_nullish(a) && is_nullish(&b))))),
        Op::Less | Op::LessEq | Op::More | Op::MoreEq => compare(op, a, &b),
        Op::Add => plus(alloc, a, &b),
        Op::Sub => difference(a, &b),
        Op::Mul => product(a, &b),
        Op::Div => quotient(true, a, &b),
        Op::Rem => remainder(a, &b),
    }
}

// `<`, `<=`, `>` or `>=`; another operator counts as `>=`.
fn compare(op: Op, a: &Value, b: &Value) -> Result<Given, OpError>
    ensures { Answers result (compared (spec.order_of op) (view_of a.now) (view_of b.now)) }
{
    let (Value::Num(a), Value::Num(b)) = (a, b) else {
        return Err(OpError::Fault(FaultKind::NotANumber));
    };
    let (a, b) = (a.get(), b.get());
    let holds = match op {
        Op::Less => a < b,
        Op::LessEq => a <= b,
        Op::More => a > b,
        _ => a >= b,
    };
    Ok(Given::free(Value::Bool(holds)))
}

/// Whether the left side of an operator alone decides: a truthy one of `||`, one of `&&` that isn't, and one of `??` that is neither
/// `undefined` nor `null`.
pub fn stops(op: Op, a: &Value) -> bool
    ensures { result ≡ spec.stops op (view_of a.now) }
{
    match op {
        Op::Nullish => !is_nullish(a),
        Op::Or => truthy(a),
        Op::And => !truthy(a),
        _ => false,
    }
}

/// What a target that holds `a` holds after it is set with `b`.
pub fn assigned(alloc: Global, op: AssignOp, a: &Value, b: Value) -> Result<Given, OpError>
    ensures { Answers result (spec.assigned op (view_of a.now) (view_of b)) }
{
    match op {
        AssignOp::Set => Ok(Given::free(b)),
        AssignOp::Add => plus(alloc, a, &b),
        AssignOp::Sub => difference(a, &b),
        AssignOp::Mul => product(a, &b),
        AssignOp::Rem => remainder(a, &b),
    }
}
