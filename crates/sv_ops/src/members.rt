// Fields, items, lengths, and what `...` takes out of a value.
ghost use Rattle.std.specs.Prelude.{◌≡◌, ◌≤◌, ◌++◌, length, map, pos, OnOk};
ghost use Rattle.sv_value.specs.Object.{get};
ghost use Rattle.sv_value.specs.Value.{number};
ghost use Rattle.sv_value.specs.View.{view_of, entry_of};
ghost use Rattle.sv_ops.specs.Members as spec;
ghost use Rattle.sv_ops.specs.Numbers.{checked as whole};
ghost use Rattle.sv_ops.specs.Texts.{units as spec_units};
ghost use Rattle.sv_ops.specs.Answer.{gives};
ghost use Rattle.sv_ops.specs.Answers.{Answers, TakesItems};

use crate::faults::{FaultKind, OpError};
use crate::given::Given;
use crate::numbers::checked;
use crate::texts::units;
use std::alloc::Global;
use sv_base::{NoMemory, Num, Text};
use sv_value::{Obj, Value};

/// The field of an object, `undefined` where it has none of that name; `NoMember` exactly for another value.
pub fn member(value: &Value, word: &str) -> Result<Given, OpError>
    ensures { Answers result (spec.member (view_of value.now) word.now) }
{
    match value {
        Value::Obj(object) => field_of(object, word),
        _ => Err(OpError::Fault(FaultKind::NoMember)),
    }
}

fn field_of(object: &Obj, key: &str) -> Result<Given, OpError>
    ensures { Answers result (gives (spec.or_undefined (get object.now key.now))) }
{
    match object.get(key) {
        Some(value) => Ok(Given::free(value.share()?)),
        None => Ok(Given::free(Value::Undefined)),
    }
}

/// The length of a list or of a text in UTF-16 code units, for which a text is walked; the field of that name of an object; `NoMember`
/// exactly for another value. `word` is that name.
pub fn length(value: &Value, word: &str) -> Result<Given, OpError>
    ensures { Answers result (spec.length_of (view_of value.now) word.now) }
{
    match value {
        Value::List(list) => Ok(Given::free(count(list.items().len()))),
        Value::Text(text) => length_in_units(text.as_str()),
        _ => member(value, word),
    }
}

// The length of a text in UTF-16 code units; `Range` where there is no number for it.
fn length_in_units(text: &str) -> Result<Given, OpError>
    ensures { Answers result (spec.walked (length text.now) (whole (pos (spec_units text.now)))) }
{
    let Ok(units) = i64::try_from(units(text.as_bytes())) else {
        return Err(OpError::Fault(FaultKind::Range));
    };
    let Given { value, .. } = checked(units)?;
    Ok(Given {
        value,
        cost: text.len(),
    })
}

/// A count as a number.
pub(crate) fn count(n: usize) -> Value
    requires { n ≤ 9007199254740991 }
    ensures { view_of result ≡ number (pos n) }
{
    match Num::new(n as i64) {
        Some(number) => Value::Num(number),
        None => Value::Undefined,
    }
}

/// The item of a list at a number, or the field of an object by a text or the spelling of a number, `undefined` where there is none;
/// `BadKey` where it can't be looked for by `at`, and `NoMember` for another value than a list, an object or a text.
pub fn index(alloc: Global, value: &Value, at: &Value) -> Result<Given, OpError>
    ensures { Answers result (spec.index (view_of value.now) (view_of at.now)) }
{
    match (value, at) {
        (Value::Obj(object), Value::Text(key)) => field_of(object, key.as_str()),
        (Value::Obj(object), Value::Num(n)) => {
            let key = n.to_string(alloc)?;
            field_of(object, key.as_str())
        }
        (Value::List(list), Value::Num(n)) => item_of(list.items(), n.get()),
        (Value::Obj(_) | Value::List(_) | Value::Text(_), _) => {
            Err(OpError::Fault(FaultKind::BadKey))
        }
        _ => Err(OpError::Fault(FaultKind::NoMember)),
    }
}

fn item_of(items: &[Value], at: i64) -> Result<Given, OpError>
    ensures { Answers result (gives (spec.or_undefined (spec.item_at (map view_of items.now) at))) }
{
    if at < 0 {
        return Ok(Given::free(Value::Undefined));
    }
    match items.get(at as usize) {
        Some(value) => Ok(Given::free(value.share()?)),
        None => Ok(Given::free(Value::Undefined)),
    }
}

/// Puts the items of a list behind others; `NotAList` exactly where the value is none. Each costs a step, which isn't counted here.
pub fn put_items(made: &mut Vec<Value>, value: &Value) -> Result<(), OpError>
    ensures { TakesItems result (map view_of made.old.items) (map view_of made.new.items) (spec.spread (view_of value.now)) }
{
    match value {
        Value::List(list) => Ok(copy_items(made, list.items())?),
        _ => Err(OpError::Fault(FaultKind::NotAList)),
    }
}

/// Puts copies of items behind others.
pub(crate) fn copy_items(made: &mut Vec<Value>, items: &[Value]) -> Result<(), NoMemory>
    ensures { OnOk result (map view_of made.new.items ≡ map view_of made.old.items ++ map view_of items.now) }
{
    for item in items {
        made.push(item.share()?)?;
    }
    Ok(())
}

/// Puts the fields of an object behind others; `undefined` and `null` have none, and another value is `NoMember`.
pub fn put_fields(made: &mut Vec<(Text, Value)>, value: &Value) -> Result<(), OpError>
    ensures { TakesItems result (map entry_of made.old.items) (map entry_of made.new.items) (spec.spread_fields (view_of value.now)) }
{
    match value {
        Value::Obj(object) => Ok(copy_fields(made, object.fields())?),
        Value::Undefined | Value::Null => Ok(()),
        _ => Err(OpError::Fault(FaultKind::NoMember)),
    }
}

fn copy_fields(made: &mut Vec<(Text, Value)>, fields: &[(Text, Value)]) -> Result<(), NoMemory>
    ensures { OnOk result (map entry_of made.new.items ≡ map entry_of made.old.items ++ map entry_of fields.now) }
{
    for field in fields {
        let key = field.0.share()?;
        let value = field.1.share()?;
        made.push((key, value))?;
    }
    Ok(())
}
