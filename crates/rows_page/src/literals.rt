// Values as the language writes them. Of a function and of a store only that they are one is told, and lists and objects are written four deep.
use std::alloc::AllocError;
use sv_base::Text;
use sv_value::Value;

/// Appends a value.
pub fn push_value(line: &mut String, value: &Value) -> Result<(), AllocError> {
    push_within(line, value, 4)
}

// Appends a value whose parts may be so deep.
#[cycle(literals)]
fn push_within(line: &mut String, value: &Value, room: u32) -> Result<(), AllocError> {
    match value {
        Value::Undefined => line.push_str("undefined"),
        Value::Null => line.push_str("null"),
        Value::Bool(truth) => write!(line, "{truth}"),
        Value::Num(number) => write!(line, "{}", number.get()),
        Value::Text(text) => write!(line, "'{}'", text.as_str()),
        Value::List(list) => push_items(line, list.items(), room),
        Value::Obj(object) => push_fields(line, object.fields(), room),
        Value::Func(_) => line.push_str("function"),
        Value::Store(_) => line.push_str("store"),
    }
}

#[cycle(literals)]
fn push_items(line: &mut String, items: &[Value], room: u32) -> Result<(), AllocError> {
    let Some(inner) = room.checked_sub(1) else {
        return line.push_str("..");
    };
    line.push_str("[")?;
    let mut first = true;
    for item in items {
        push_comma(line, first)?;
        push_within(line, item, inner)?;
        first = false;
    }
    line.push_str("]")
}

#[cycle(literals)]
fn push_fields(line: &mut String, fields: &[(Text, Value)], room: u32) -> Result<(), AllocError> {
    let Some(inner) = room.checked_sub(1) else {
        return line.push_str("..");
    };
    line.push_str("{")?;
    let mut first = true;
    for (key, value) in fields {
        push_comma(line, first)?;
        write!(line, "{}: ", key.as_str())?;
        push_within(line, value, inner)?;
        first = false;
    }
    line.push_str("}")
}

// Appends what parts two parts, behind the first.
fn push_comma(line: &mut String, first: bool) -> Result<(), AllocError> {
    if first {
        return Ok(());
    }
    line.push_str(", ")
}
