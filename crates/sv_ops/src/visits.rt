// The calls on lists that take a function.
ghost use Rattle.std.specs.Prelude.{◌≡◌, ◌<◌, map, option_map, IfOk};
ghost use Rattle.sv_value.specs.View.{view_of};
ghost use Rattle.sv_ops.specs.Visits as spec;
ghost use Rattle.sv_ops.specs.Answers.{Answers, turn_of};
ghost use Rattle.sv_base.specs.declared.limits.TheConstants.{VALUE_SIZE_LIMIT};

use crate::faults::OpError;
use crate::given::Given;
use crate::make::list_of;
use crate::members::count;
use crate::numbers::checked;
use std::alloc::Global;
use sv_base::NoMemory;
use sv_code::Method;
use sv_value::{Value, truthy};

/// How a call goes on after its function was called for an item: it ends with a value, puts one in the list that it makes, passes on, or
/// holds one from now on.
#[derive(Drop)]
pub enum Verdict {
    Ends(Value),
    Puts(Value),
    Passes,
    Holds(Value),
}

/// How a call goes on after its function gave a value for the item with this number.
pub fn judge(method: Method, gave: Value, item: &Value, n: usize) -> Result<Verdict, NoMemory>
    requires { n < VALUE_SIZE_LIMIT }
    ensures { IfOk result (λ v. turn_of v ≡ spec.turn method (view_of gave) (view_of item.now) n) }
{
    let holds = truthy(&gave);
    match method {
        Method::Map => Ok(Verdict::Puts(gave)),
        Method::Reduce => Ok(Verdict::Holds(gave)),
        Method::Filter if holds => Ok(Verdict::Puts(item.share()?)),
        Method::Find if holds => Ok(Verdict::Ends(item.share()?)),
        Method::FindIndex if holds => Ok(Verdict::Ends(count(n))),
        Method::Some if holds => Ok(Verdict::Ends(Value::Bool(true))),
        Method::Every if !holds => Ok(Verdict::Ends(Value::Bool(false))),
        _ => Ok(Verdict::Passes),
    }
}

/// What the function of a call is called with: for `reduce` the value so far, and then the item and its number.
pub fn arguments(
    alloc: Global,
    method: Method,
    held: &Value,
    item: &Value,
    n: usize,
) -> Result<Vec<Value>, NoMemory>
    requires { n < VALUE_SIZE_LIMIT }
    ensures { IfOk result (λ args. map view_of args.items ≡ spec.arguments method (view_of held.now) (view_of item.now) n) }
{
    let mut args = Vec::new(alloc);
    if matches!(method, Method::Reduce) {
        args.push(held.share()?)?;
    }
    args.push(item.share()?)?;
    args.push(count(n))?;
    Ok(args)
}

/// What a call gives after the last item: the list that it made, `Deep` or else `Large` where there can't be such a list, or what it is
/// where no item ended it.
pub fn finish(
    alloc: Global,
    method: Method,
    made: Vec<Value>,
    held: Value,
) -> Result<Given, OpError>
    ensures { Answers result (spec.finish method (map view_of made.items) (view_of held)) }
{
    match method {
        Method::Map | Method::Filter => list_of(alloc, made),
        Method::Some => Ok(Given::free(Value::Bool(false))),
        Method::Every => Ok(Given::free(Value::Bool(true))),
        Method::FindIndex => checked(-1),
        Method::Reduce => Ok(Given::free(held)),
        _ => Ok(Given::free(Value::Undefined)),
    }
}
