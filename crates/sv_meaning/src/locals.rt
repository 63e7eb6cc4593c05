// The local names that are open where code runs.
ghost use Rattle.std.specs.Prelude.{◌≡◌, ◌∷◌, [], ◌++◌, ◌<◌, IfSome, OnOk, IfOk, length, map, take, None, Some, option_map, option_copied};
ghost use Rattle.sv_value.specs.View.{view_of};
ghost use Rattle.std.specs.Prelude.{slice_get, slice_set};
ghost use Rattle.sv_ops.specs.Members.{or_undefined};
ghost use Rattle.sv_meaning.specs.Env.{place, look, given_value, opened, bound, numbers, params, shown};

use std::alloc::Global;
use std::marker::Model;
use sv_ast::Named;
use sv_base::{Name, NoMemory};
use sv_value::Value;

// A name, and its value once its declaration ran.
#[derive(Drop)]
struct Entry {
    name: Name,
    value: Option<Value>,
}

/// The local names that are open where code runs, the innermost last. A name has no value until its declaration ran.
#[derive(Drop)]
pub struct Locals {
    entries: Vec<Entry>,
}

impl Model for Locals {
    ghost use Rattle.sv_meaning.specs.Env.{Env, env_code};

    ghost Value = { Env };

    ghost coded = { env_code };

    ghost use Rattle.std.specs.Prelude.{map, option_map};
    ghost use Rattle.sv_value.specs.View.{view_of};

    ghost view = { λ l. map (λ e. (e.name.0, option_map view_of e.value)) l.entries.items };
}

impl Locals {
    /// No names.
    pub fn new(alloc: Global) -> Locals
        ensures { result ≡ [] }
    {
        Locals {
            entries: Vec::new(alloc),
        }
    }

    /// How many names are open.
    pub fn len(&self) -> usize
        ensures { result ≡ length self.now }
    {
        self.entries.len()
    }

    /// Closes all but the first so many names.
    pub fn truncate(&mut self, len: usize)
        ensures { self.new ≡ take len self.old }
    {
        self.entries.truncate(len);
    }

    /// Opens a name that has a value.
    pub fn push(&mut self, name: Name, value: Value) -> Result<(), NoMemory>
        ensures { OnOk result (self.new ≡ self.old ++ (name.0, Some (view_of value)) ∷ []) }
    {
        let value = Some(value);
        self.entries.push(Entry { name, value })?;
        Ok(())
    }

    // Opens a name that has no value yet.
    fn open(&mut self, name: Name) -> Result<(), NoMemory>
        ensures { OnOk result (self.new ≡ self.old ++ (name.0, None) ∷ []) }
    {
        self.entries.push(Entry { name, value: None })?;
        Ok(())
    }

    /// Opens names that have no values yet.
    pub fn open_all(&mut self, names: &[Name]) -> Result<(), NoMemory>
        ensures { OnOk result (self.new ≡ self.old ++ opened names.now) }
    {
        for name in names {
            self.open(*name)?;
        }
        Ok(())
    }

    // Where the last entry of a name stands.
    fn place(&self, name: Name) -> Option<usize>
        ensures place { result ≡ place name.0 self.now }
        ensures within { IfSome result (λ i. i < length self.now) }
    {
        let mut i = self.entries.len();
        while i > 0 {
            i -= 1;
            if self.entries[i].name == name {
                return Some(i);
            }
        }
        None
    }

    /// The value of a name, or `None` exactly where it has none.
    pub fn get(&self, name: Name) -> Option<&Value>
        ensures { option_map view_of (option_copied result) ≡ look name.0 self.now }
    {
        let i = self.place(name)?;
        self.entries[i].value.as_ref()
    }

    /// Gives a name a value. Where the name isn't open, nothing changes.
    pub fn give(&mut self, name: Name, value: Value)
        ensures { self.new ≡ given_value name.0 (view_of value) self.old }
    {
        match self.place(name) {
            Some(i) => put(
                &mut self.entries,
                i,
                Entry {
                    name,
                    value: Some(value),
                },
            ),
            None => drop(value),
        }
    }

    /// Opens captured names with the values that they had. A missing one is undefined.
    pub fn bind(&mut self, names: &[Name], values: &[Value]) -> Result<(), NoMemory>
        ensures { OnOk result (self.new ≡ self.old ++ bound (numbers names.now) (map view_of values.now)) }
    {
        for (i, name) in names.iter().enumerate() {
            self.push(*name, value_at(values, i)?)?;
        }
        Ok(())
    }

    /// Opens parameters with the values of arguments. A missing one is undefined.
    pub fn bind_params(&mut self, named: &[Named], values: &[Value]) -> Result<(), NoMemory>
        ensures { OnOk result (self.new ≡ self.old ++ bound (params named.now) (map view_of values.now)) }
    {
        for (i, param) in named.iter().enumerate() {
            self.push(param.name, value_at(values, i)?)?;
        }
        Ok(())
    }

    /// The row locals and slot props of a view, whose innermost come first.
    pub fn shown(alloc: Global, locals: &[sv_view::Local]) -> Result<Locals, NoMemory>
        ensures { IfOk result (λ l. l ≡ shown locals.now) }
    {
        let mut all = Locals::new(alloc);
        let mut i = locals.len();
        while i > 0 {
            i -= 1;
            let local = &locals[i];
            all.push(local.name, local.value.share()?)?;
        }
        Ok(all)
    }
}

fn put(entries: &mut Vec<Entry>, at: usize, entry: Entry)
    requires { at < length entries.old.items }
    ensures { entries.new.items ≡ slice_set entries.old.items at entry }
{
    entries[at] = entry;
}

fn value_at(values: &[Value], at: usize) -> Result<Value, NoMemory>
    ensures { IfOk result (λ v. view_of v ≡ or_undefined (slice_get (map view_of values.now) at)) }
{
    match values.get(at) {
        Some(value) => value.share(),
        None => Ok(Value::Undefined),
    }
}
