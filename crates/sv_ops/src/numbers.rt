// Whole numbers.
ghost use Rattle.std.specs.Prelude.{◌≡◌, ◌≢◌, int_rem, int_div, pos};
ghost use Rattle.sv_value.specs.View.{view_of};
ghost use Rattle.sv_ops.specs.Numbers as spec;
ghost use Rattle.sv_ops.specs.Answers.{Answers};
ghost use Rattle.sv_base.specs.Num.{IsSafe};

use crate::faults::{FaultKind, OpError};
use crate::given::Given;
use sv_base::Num;
use sv_value::Value;

/// The number, or `Range` exactly where it isn't a safe integer.
pub(crate) fn checked(n: i64) -> Result<Given, OpError>
    ensures { Answers result (spec.checked n) }
{
    match Num::new(n) {
        Some(number) => Ok(Given::free(Value::Num(number))),
        None => Err(OpError::Fault(FaultKind::Range)),
    }
}

/// The difference of two numbers: `NotANumber`, or else `Range`.
pub(crate) fn difference(a: &Value, b: &Value) -> Result<Given, OpError>
    ensures { Answers result (spec.difference (view_of a.now) (view_of b.now)) }
{
    match (a, b) {
        (Value::Num(a), Value::Num(b)) => checked(a.get() - b.get()),
        _ => Err(OpError::Fault(FaultKind::NotANumber)),
    }
}

/// The product of two numbers: `NotANumber`, or else `Range`.
pub(crate) fn product(a: &Value, b: &Value) -> Result<Given, OpError>
    ensures { Answers result (spec.product (view_of a.now) (view_of b.now)) }
{
    match (a, b) {
        (Value::Num(a), Value::Num(b)) => match a.get().checked_mul(b.get()) {
            Some(n) => checked(n),
            None => Err(OpError::Fault(FaultKind::Range)),
        },
        _ => Err(OpError::Fault(FaultKind::NotANumber)),
    }
}

/// The remainder of a division, with the sign of the dividend: `NotANumber`, or else `ZeroDivisor`.
pub(crate) fn remainder(a: &Value, b: &Value) -> Result<Given, OpError>
    ensures { Answers result (spec.remainder (view_of a.now) (view_of b.now)) }
{
    match (a, b) {
        (Value::Num(a), Value::Num(b)) => remainder_of(a.get(), b.get()),
        _ => Err(OpError::Fault(FaultKind::NotANumber)),
    }
}

fn remainder_of(a: i64, b: i64) -> Result<Given, OpError>
    requires a { IsSafe a }
    requires b { IsSafe b }
    ensures { Answers result (spec.divided int_rem a b) }
{
    if b == 0 {
        return Err(OpError::Fault(FaultKind::ZeroDivisor));
    }
    checked(a % b)
}

/// The quotient of two numbers, rounded towards 0 or down: `NotANumber`, or else `ZeroDivisor`.
pub fn quotient(truncates: bool, a: &Value, b: &Value) -> Result<Given, OpError>
    ensures { Answers result (spec.quotient truncates (view_of a.now) (view_of b.now)) }
{
    match (a, b) {
        (Value::Num(a), Value::Num(b)) if truncates => truncated(a.get(), b.get()),
        (Value::Num(a), Value::Num(b)) => floored(a.get(), b.get()),
        _ => Err(OpError::Fault(FaultKind::NotANumber)),
    }
}

fn truncated(a: i64, b: i64) -> Result<Given, OpError>
    requires a { IsSafe a }
    requires b { IsSafe b }
    ensures { Answers result (spec.divided int_div a b) }
{
    if b == 0 {
        return Err(OpError::Fault(FaultKind::ZeroDivisor));
    }
    checked(a / b)
}

fn floored(a: i64, b: i64) -> Result<Given, OpError>
    requires a { IsSafe a }
    requires b { IsSafe b }
    ensures { Answers result (spec.divided spec.floored a b) }
{
    if b == 0 {
        return Err(OpError::Fault(FaultKind::ZeroDivisor));
    }
    checked(floor_of(a, b))
}

// The quotient of two numbers, of which the second isn't 0, rounded down.
#[tactic(auto, using(crate::proofs::Rounding::floors))]
fn floor_of(a: i64, b: i64) -> i64
    requires a { IsSafe a }
    requires b { IsSafe b }
    requires some { b ≢ pos 0 }
    ensures { result ≡ spec.floored a b }
{
    if b < 0 {
        (-a).div_euclid(-b)
    } else {
        a.div_euclid(b)
    }
}

/// A number one up or down: `NotANumber`, or else `Range`.
pub fn bumped(up: bool, value: &Value) -> Result<Given, OpError>
    ensures { Answers result (spec.bumped up (view_of value.now)) }
{
    match value {
        Value::Num(n) if up => checked(n.get() + 1),
        Value::Num(n) => checked(n.get() - 1),
        _ => Err(OpError::Fault(FaultKind::NotANumber)),
    }
}

/// The number with the other sign; 0 has none. `NotANumber` exactly where it isn't a number.
pub fn negated(value: &Value) -> Result<Given, OpError>
    ensures { Answers result (spec.negated (view_of value.now)) }
{
    match value {
        Value::Num(n) => checked(0 - n.get()),
        _ => Err(OpError::Fault(FaultKind::NotANumber)),
    }
}
