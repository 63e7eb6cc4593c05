// The texts of values.
ghost use Rattle.sv_value.specs.Words.{Shows};
ghost use Rattle.sv_value.specs.View.{view_of};

use crate::fault::ValueFault;
use crate::value::Value;
use std::alloc::Global;
use sv_base::Text;

/// The text of a plain value, as `String` of ECMA-262 gives it (section 7.1.17); `NotText` exactly for a list, an object,
/// a function or a store.
pub fn text_of(alloc: Global, value: &Value) -> Result<Text, ValueFault>
    ensures { Shows result (view_of value.now) }
{
    let text = match value {
        Value::Undefined => Text::new(alloc, "undefined")?,
        Value::Null => Text::new(alloc, "null")?,
        Value::Bool(true) => Text::new(alloc, "true")?,
        Value::Bool(false) => Text::new(alloc, "false")?,
        Value::Num(n) => {
            let digits = n.to_string(alloc)?;
            Text::new(alloc, digits.as_str())?
        }
        Value::Text(text) => text.share()?,
        Value::List(_) | Value::Obj(_) | Value::Func(_) | Value::Store(_) => {
            return Err(ValueFault::NotText);
        }
    };
    Ok(text)
}
