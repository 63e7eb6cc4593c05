// Values made of parts.
ghost use Rattle.std.specs.Prelude.{◌≡◌, map, IfOk, OnOk};
ghost use Rattle.std.specs.BTreeMap.{insert_entry};
ghost use Rattle.sv_value.specs.Value.{vals, fields, text, list, object, function, bare};
ghost use Rattle.sv_value.specs.Object.{HasLast, IsMapOf, written, key_order, IsOrdered};
ghost use Rattle.sv_value.specs.View.{view_of, entry_of};
ghost use Rattle.sv_value.specs.Making.{Makes};

use crate::fault::ValueFault;
use crate::value::{Func, Inst, List, Obj, Value};
use std::alloc::Global;
use std::collections::BTreeMap;
use sv_base::{NoMemory, Text, VALUE_SIZE_LIMIT};

/// The text `s`; `Large` exactly where it has [`VALUE_SIZE_LIMIT`] bytes or more.
pub fn make_text(alloc: Global, s: &str) -> Result<Value, ValueFault>
    ensures { Makes result (text s.now) }
{
    if s.len() >= VALUE_SIZE_LIMIT as usize {
        return Err(ValueFault::Large);
    }
    let text = Text::new(alloc, s)?;
    Ok(Value::Text(text))
}

/// A list of these items; `Deep` exactly where it would nest deeper than the limit, else `Large` exactly where it would be
/// larger than the limit.
pub fn make_list(alloc: Global, items: Vec<Value>) -> Result<Value, ValueFault>
    ensures { Makes result (list (vals (map view_of items.items))) }
{
    let list = List::new(alloc, items)?;
    Ok(Value::List(list))
}

/// An object with these fields, of which the last of equal keys stays; `Deep` and `Large` as for a list, by the fields that
/// stay.
pub fn make_obj(alloc: Global, fields: Vec<(Text, Value)>) -> Result<Value, ValueFault>
    ensures tree { Makes result (object (written bare (map entry_of fields.items))) }
    ensures last_stays { HasLast (written bare (map entry_of fields.items)) (map entry_of fields.items) }
    ensures any_order { IsMapOf (written bare (map entry_of fields.items)) (map entry_of fields.items) }
{
    let ordered = in_key_order(alloc, fields)?;
    let object = Obj::new(alloc, ordered)?;
    Ok(Value::Obj(object))
}

/// A function with this code, the owner's number and these captured values; `Deep` and `Large` as for a list. The owner's key is kept
/// with them as a hint that no clause promises.
pub fn make_func(
    alloc: Global,
    code: u32,
    owner: Inst,
    held: Vec<Value>,
) -> Result<Value, ValueFault>
    ensures { Makes result (function code owner.number (vals (map view_of held.items))) }
{
    let held = List::new(alloc, held)?;
    Ok(Value::Func(Func { code, owner, held }))
}

// The fields in the order of their keys, of which the last of equal keys stays.
fn in_key_order(alloc: Global, pairs: Vec<(Text, Value)>) -> Result<Vec<(Text, Value)>, NoMemory>
    ensures value { IfOk result (λ v. fields (map entry_of v.items) ≡ written bare (map entry_of pairs.items)) }
    ensures ordered { IfOk result (λ v. IsOrdered (fields (map entry_of v.items))) }
{
    let mut by_key = BTreeMap::new(alloc);
    for (key, value) in pairs {
        write_field(&mut by_key, key, value)?;
    }
    Ok(by_key.into_iter().collect(alloc)?)
}

// Writes a field at its place in the order of keys, or over the one with this key.
fn write_field(by_key: &mut BTreeMap<Text, Value>, key: Text, value: Value) -> Result<(), NoMemory>
    ensures { OnOk result (by_key.new.entries ≡ insert_entry key_order by_key.old.entries key value) }
{
    by_key.insert(key, value)?;
    Ok(())
}
