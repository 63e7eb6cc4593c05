// Values that are made of others.
ghost use Rattle.std.specs.Prelude.{◌≡◌, ◌+◌, ◌<◌, ◌^◌, length, map};
ghost use Rattle.sv_value.specs.Value.{list, vals};
ghost use Rattle.sv_value.specs.View.{view_of, entry_of};
ghost use Rattle.sv_value.specs.Making.{Makes};
ghost use Rattle.sv_value.specs.Value.{Val};
ghost use Rattle.sv_ops.specs.Answer.{made as made_at, spelled, text_made, list_made, object_made, function_made};
ghost use Rattle.sv_ops.specs.Answers.{Answers};

use crate::faults::{FaultKind, OpError};
use crate::given::Given;
use std::alloc::Global;
use sv_base::{Text, VALUE_SIZE_LIMIT};
use sv_value::{Inst, Value, ValueFault, make_func, make_list, make_obj, make_text};

/// A text that is there already, as a value, which costs nothing more; `Large` exactly where it would be larger than a value may be.
pub fn text_value(text: &Text) -> Result<Given, OpError>
    ensures { Answers result (text_made text.now) }
{
    if text.as_str().len() >= VALUE_SIZE_LIMIT as usize {
        return Err(OpError::Fault(FaultKind::Large));
    }
    Ok(Given {
        value: Value::Text(text.share()?),
        cost: 0,
    })
}

/// A list of these items, which costs nothing more; `Deep` or else `Large` where it would be deeper or larger than a value may be.
pub fn list_of(alloc: Global, items: Vec<Value>) -> Result<Given, OpError>
    ensures { Answers result (list_made (map view_of items.items)) }
{
    costing(make_list(alloc, items), 0)
}

/// An object of these fields, of which the last with a key stays, and which costs nothing more; `Deep` or else `Large`.
pub fn object_of(alloc: Global, fields: Vec<(Text, Value)>) -> Result<Given, OpError>
    ensures { Answers result (object_made (map entry_of fields.items)) }
{
    costing(make_obj(alloc, fields), 0)
}

/// A function with this code and owner that holds these values, which costs nothing more; `Deep` or else `Large`.
pub fn function_of(
    alloc: Global,
    code: u32,
    owner: Inst,
    held: Vec<Value>,
) -> Result<Given, OpError>
    ensures { Answers result (function_made code owner.number (map view_of held.items)) }
{
    costing(make_func(alloc, code, owner, held), 0)
}

/// A list that costs its items, and what was walked for them.
pub(crate) fn list_costing(alloc: Global, items: Vec<Value>, cost: usize) -> Result<Given, OpError>
    ensures { Answers result (made_at cost (list (vals (map view_of items.items)))) }
{
    costing(make_list(alloc, items), cost)
}

/// A text that costs its bytes, and what was walked for it.
pub(crate) fn spell(alloc: Global, walked: usize, s: &str) -> Result<Given, OpError>
    requires { walked + length s.now < 2 ^ 64 }
    ensures { Answers result (spelled walked s.now) }
{
    costing(make_text(alloc, s), walked + s.len())
}

// A value that was made, with what it costs.
fn costing(made: Result<Value, ValueFault>, cost: usize) -> Result<Given, OpError>
    ensures { (v : Val) → Makes made v → Answers result (made_at cost v) }
{
    match made {
        Ok(value) => Ok(Given { value, cost }),
        Err(ValueFault::Deep) => Err(OpError::Fault(FaultKind::Deep)),
        Err(ValueFault::Large) => Err(OpError::Fault(FaultKind::Large)),
        Err(ValueFault::NotText | ValueFault::NoMemory) => Err(OpError::NoMemory),
    }
}
