// Values as trees that share their parts.
ghost use Rattle.std.specs.Prelude.{◌≡◌, ◌<◌, ◌≤◌, IfOk, MatchOption, None, Some, map, length};
ghost use Rattle.sv_value.specs.Value.{vals, items, fields, entries, depth, size, depths, sizes, field_depths, field_sizes};
ghost use Rattle.sv_value.specs.Object.{get, key_order, IsOrdered};
ghost use Rattle.sv_value.specs.View.{view_of, entry_of};
ghost use Rattle.sv_value.specs.Making.{Holds};
ghost use Rattle.sv_value.specs.Found.{IsFieldAt};

use crate::fault::ValueFault;
use crate::measure::Measure;
use std::alloc::Global;
use std::cmp::Ordering;
use std::marker::Model;
use std::rc::Rc;
use sv_base::{NoMemory, Num, Text, VALUE_DEPTH_LIMIT, VALUE_SIZE_LIMIT};

/// An instance of a component: its number, which no other instance ever has, and the key under which it may be kept. The key is
/// a hint that no clause promises: who finds an instance by it compares the number. A module's code has the owner with number 0.
#[derive(Clone, Copy, PartialEq, Eq, Debug)]
pub struct Inst {
    pub key: u32,
    pub number: u64,
}

/// A value of a script. What is in it is shared with its copies and never changes.
#[cycle(value)]
#[derive(Drop)]
pub enum Value {
    Undefined,
    Null,
    Bool(bool),
    Num(Num),
    Text(Text),
    List(List),
    Obj(Obj),
    Func(Func),
    Store(u32),
}

/// A list. Its depth and size are kept beside its items, so that the limits cost no walk.
#[cycle(value)]
#[derive(Drop)]
pub struct List {
    shared: Rc<Vec<Value>>,
    deepest: u32,
    total: u32,
}

/// An object: its fields in the order of their keys' bytes, each key once, so that a field is found by a binary search. Its
/// depth and size are kept beside them.
#[cycle(value)]
#[derive(Drop)]
pub struct Obj {
    shared: Rc<Vec<(Text, Value)>>,
    deepest: u32,
    total: u32,
}

/// A function: its code, the instance that owns it, and the values that it captured.
#[cycle(value)]
#[derive(Drop)]
pub struct Func {
    pub(crate) code: u32,
    pub(crate) owner: Inst,
    pub(crate) held: List,
}

impl Model for List {
    ghost use Rattle.sv_value.specs.Value.{Vals};
    ghost use Rattle.sv_value.specs.Stored.{vals_code};

    ghost Value = { Vals };

    ghost coded = { vals_code };

    ghost use Rattle.std.specs.Prelude.{map};
    ghost use Rattle.sv_value.specs.Value.{vals, depths};
    ghost use Rattle.sv_value.specs.View.{view_of};
    ghost use Rattle.sv_value.specs.Kept.{KeepsItems};

    ghost view = { λ a. vals (map view_of a.shared.value.items) };

    ghost invariant = { λ a. KeepsItems a.deepest a.total (vals (map view_of a.shared.value.items)) };

    ghost size = { depths };

    ghost use Rattle.std.proofs.Common.{arith};
    ghost use Rattle.sv_value.specs.Falls.{most_le-depths};

    ghost size_decreases = { λ a h. Prim.omega (arith, most_le-depths a.shared.value.items) };
}

impl Model for Obj {
    ghost use Rattle.sv_value.specs.Value.{Fields};
    ghost use Rattle.sv_value.specs.Stored.{fields_code};

    ghost Value = { Fields };

    ghost coded = { fields_code };

    ghost use Rattle.std.specs.Prelude.{map};
    ghost use Rattle.sv_value.specs.Value.{fields, field_depths};
    ghost use Rattle.sv_value.specs.View.{entry_of};
    ghost use Rattle.sv_value.specs.Kept.{KeepsFields};

    ghost view = { λ a. fields (map entry_of a.shared.value.items) };

    ghost invariant = { λ a. KeepsFields a.deepest a.total (fields (map entry_of a.shared.value.items)) };

    ghost size = { field_depths };

    ghost use Rattle.std.proofs.Common.{arith};
    ghost use Rattle.sv_value.specs.Falls.{most_le-field_depths};

    ghost size_decreases = { λ a h. Prim.omega (arith, most_le-field_depths a.shared.value.items) };
}

impl List {
    // A list of these items, where they fit.
    pub(crate) fn new(alloc: Global, items: Vec<Value>) -> Result<List, ValueFault>
        ensures { let tree = vals (map view_of items.items) in Holds result tree (depths tree) (sizes tree) }
    {
        let measure = Measure::of_items(&items);
        if let Some(fault) = measure.fault() {
            return Err(fault);
        }
        let shared = Rc::new(alloc, items)?;
        Ok(List {
            shared,
            deepest: measure.deepest,
            total: measure.total,
        })
    }

    // The same list, whose items are not copied.
    fn share(&self) -> Result<List, NoMemory>
        ensures { IfOk result (λ l. l ≡ self.now) }
    {
        Ok(List {
            shared: self.shared.clone()?,
            deepest: self.deepest,
            total: self.total,
        })
    }

    /// The items in order, fewer than [`sv_base::VALUE_SIZE_LIMIT`].
    pub fn items(&self) -> &[Value]
        ensures value { vals (map view_of result.now) ≡ self.now }
        ensures list { map view_of result.now ≡ items self.now }
        ensures few { length result.now < VALUE_SIZE_LIMIT }
        ensures small { sizes self.now < VALUE_SIZE_LIMIT }
    {
        self.shared.as_slice()
    }
}

impl Obj {
    // An object of these fields, which stand in the order of their keys, where they fit.
    pub(crate) fn new(alloc: Global, pairs: Vec<(Text, Value)>) -> Result<Obj, ValueFault>
        requires { IsOrdered (fields (map entry_of pairs.items)) }
        ensures { let tree = fields (map entry_of pairs.items) in Holds result tree (field_depths tree) (field_sizes tree) }
    {
        let measure = Measure::of_fields(&pairs);
        if let Some(fault) = measure.fault() {
            return Err(fault);
        }
        let shared = Rc::new(alloc, pairs)?;
        Ok(Obj {
            shared,
            deepest: measure.deepest,
            total: measure.total,
        })
    }

    // The same object, whose fields are not copied.
    fn share(&self) -> Result<Obj, NoMemory>
        ensures { IfOk result (λ o. o ≡ self.now) }
    {
        Ok(Obj {
            shared: self.shared.clone()?,
            deepest: self.deepest,
            total: self.total,
        })
    }

    /// The fields in the order of their keys' bytes, fewer than [`sv_base::VALUE_SIZE_LIMIT`].
    pub fn fields(&self) -> &[(Text, Value)]
        ensures value { fields (map entry_of result.now) ≡ self.now }
        ensures list { map entry_of result.now ≡ entries self.now }
        ensures few { length result.now < VALUE_SIZE_LIMIT }
    {
        self.shared.as_slice()
    }

    /// The value of the field with this key, or `None` exactly where there is no such field.
    pub fn get(&self, key: &str) -> Option<&Value>
        ensures { MatchOption result (get self.now key.now ≡ None) (λ v. get self.now key.now ≡ Some (view_of v.now)) }
    {
        let pairs = self.shared.as_slice();
        match find_field(pairs, key) {
            Some(place) => Some(&pairs[place].1),
            None => None,
        }
    }
}

impl Func {
    /// The number of its code.
    pub fn code(&self) -> u32
        ensures { result ≡ self.now.code }
    {
        self.code
    }

    /// The instance whose cells the code reads. Its number is the owner's of the function's tree; its key is a hint that no clause
    /// promises.
    pub fn owner(&self) -> Inst
        ensures { result ≡ self.now.owner }
    {
        self.owner
    }

    /// The values that it captured, in order, fewer than [`sv_base::VALUE_SIZE_LIMIT`].
    pub fn held(&self) -> &[Value]
        ensures value { vals (map view_of result.now) ≡ self.now.held }
        ensures list { map view_of result.now ≡ items self.now.held }
        ensures few { length result.now < VALUE_SIZE_LIMIT }
    {
        self.held.items()
    }

    // The same function, whose captured values are not copied.
    fn share(&self) -> Result<Func, NoMemory>
        ensures { IfOk result (λ f. f ≡ self.now) }
    {
        Ok(Func {
            code: self.code,
            owner: self.owner,
            held: self.held.share()?,
        })
    }
}

impl Value {
    /// The same value, of which nothing is copied.
    pub fn share(&self) -> Result<Value, NoMemory>
        ensures { IfOk result (λ v. v ≡ self.now) }
    {
        Ok(match self {
            Value::Undefined => Value::Undefined,
            Value::Null => Value::Null,
            Value::Bool(b) => Value::Bool(*b),
            Value::Num(n) => Value::Num(*n),
            Value::Text(text) => Value::Text(text.share()?),
            Value::List(list) => Value::List(list.share()?),
            Value::Obj(object) => Value::Obj(object.share()?),
            Value::Func(function) => Value::Func(function.share()?),
            Value::Store(id) => Value::Store(*id),
        })
    }

    // How deep it nests, which costs no walk.
    pub(crate) fn depth(&self) -> u32
        ensures value { result ≡ depth (view_of self.now) }
        ensures limit { result ≤ VALUE_DEPTH_LIMIT }
    {
        match self {
            Value::List(list) => list.deepest + 1,
            Value::Obj(object) => object.deepest + 1,
            Value::Func(function) => {
                let held = &function.held;
                held.deepest + 1
            }
            _ => 0,
        }
    }

    // How large it is, which costs no walk.
    pub(crate) fn size(&self) -> usize
        ensures { result ≡ size (view_of self.now) }
    {
        match self {
            Value::Text(text) => text.as_str().len() + 1,
            Value::List(list) => list.total as usize + 1,
            Value::Obj(object) => object.total as usize + 1,
            Value::Func(function) => {
                let held = &function.held;
                held.total as usize + 1
            }
            _ => 1,
        }
    }
}

// Where the field with this key stands, among fields in the order of their keys.
fn find_field(pairs: &[(Text, Value)], key: &str) -> Option<usize>
    requires { IsOrdered (fields (map entry_of pairs.now)) }
    ensures { MatchOption result (get (fields (map entry_of pairs.now)) key.now ≡ None) (λ i. IsFieldAt pairs.now key.now i) }
{
    pairs.binary_search_by(|pair| pair.0.as_str().cmp(key)).ok()
}
