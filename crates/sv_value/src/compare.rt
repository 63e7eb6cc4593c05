// Values compared with each other and as conditions.
ghost use Rattle.std.specs.Prelude.{◌≡◌, ◌↔◌, IsTrue};
ghost use Rattle.sv_value.specs.Change.{differs, truthy};
ghost use Rattle.sv_value.specs.View.{view_of};

use crate::value::{List, Obj, Value};

/// Whether an assignment of `new` over `old` counts as a change: a list, an object, a function or a store was there, or the
/// two aren't one plain value. It is `safe_not_equal` of Svelte 4's runtime, without `NaN`.
pub fn differs(old: &Value, new: &Value) -> bool
    ensures { result ≡ differs (view_of old.now) (view_of new.now) }
{
    match (old, new) {
        (Value::Undefined, Value::Undefined) | (Value::Null, Value::Null) => false,
        (Value::Bool(old), Value::Bool(new)) => *old != *new,
        (Value::Num(old), Value::Num(new)) => old.get() != new.get(),
        (Value::Text(old), Value::Text(new)) => old.as_str() != new.as_str(),
        _ => true,
    }
}

/// Whether a condition takes the value as true: all but `undefined`, `null`, `false`, 0 and the empty text (ECMA-262,
/// section 7.1.2).
pub fn truthy(value: &Value) -> bool
    ensures { result ≡ truthy (view_of value.now) }
{
    match value {
        Value::Undefined | Value::Null => false,
        Value::Bool(b) => *b,
        Value::Num(n) => n.get() != 0,
        Value::Text(text) => !text.as_str().is_empty(),
        Value::List(_) | Value::Obj(_) | Value::Func(_) | Value::Store(_) => true,
    }
}

/// Whether the two are one tree. Objects are the same whatever the order in which their fields were written, and functions
/// where code, owner's number and captured values are.
#[cycle(same)]
pub fn same(a: &Value, b: &Value) -> bool
    ensures { IsTrue result ↔ (view_of a.now ≡ view_of b.now) }
{
    match (a, b) {
        (Value::Undefined, Value::Undefined) | (Value::Null, Value::Null) => true,
        (Value::Bool(a), Value::Bool(b)) => *a == *b,
        (Value::Num(a), Value::Num(b)) => a.get() == b.get(),
        (Value::Text(a), Value::Text(b)) => a.as_str() == b.as_str(),
        (Value::List(a), Value::List(b)) => same_items(a, b),
        (Value::Obj(a), Value::Obj(b)) => same_fields(a, b),
        (Value::Func(a), Value::Func(b)) => {
            a.code == b.code && a.owner.number == b.owner.number && same_items(&a.held, &b.held)
        }
        (Value::Store(a), Value::Store(b)) => *a == *b,
        _ => false,
    }
}

#[cycle(same)]
fn same_items(a: &List, b: &List) -> bool
    ensures { IsTrue result ↔ (a.now ≡ b.now) }
{
    let left = a.items();
    let right = b.items();
    if left.len() != right.len() {
        return false;
    }
    for i in 0..left.len() {
        if !same(&left[i], &right[i]) {
            return false;
        }
    }
    true
}

#[cycle(same)]
fn same_fields(a: &Obj, b: &Obj) -> bool
    ensures { IsTrue result ↔ (a.now ≡ b.now) }
{
    let left = a.fields();
    let right = b.fields();
    if left.len() != right.len() {
        return false;
    }
    for i in 0..left.len() {
        let a = &left[i];
        let b = &right[i];
        if a.0.as_str() != b.0.as_str() {
            return false;
        }
        if !same(&a.1, &b.1) {
            return false;
        }
    }
    true
}
