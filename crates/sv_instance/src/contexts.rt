// Contexts.
ghost use Rattle.std.specs.Prelude.{◌≡◌, ◌∷◌, [], option_map, option_copied, OnOk, OnErr};
ghost use Rattle.sv_value.specs.View.{view_of};
ghost use Rattle.sv_instance.specs.Contexts.{same_key, context_at};
ghost use Rattle.sv_instance.specs.Given.{contexts_of};

use std::alloc::Global;
use std::marker::Model;
use sv_base::NoMemory;
use sv_value::{Key, Value};

/// What an instance gave to those below it by `setContext`, the last first.
#[derive(Drop)]
pub struct Contexts {
    list: Vec<(Key, Value)>,
}

impl Model for Contexts {
    ghost use Rattle.std.specs.Prelude.{List};
    ghost use Rattle.std.specs.Coded.{codes};
    ghost use Rattle.sv_value.specs.Stored.{val_code};
    ghost use Rattle.sv_instance.specs.Contexts.{Context};

    ghost Value = { List Context };

    ghost coded = { Prim.hlevel (codes, val_code) };

    ghost use Rattle.sv_instance.specs.Given.{contexts_of};

    ghost view = { λ c. contexts_of c.list.items };
}

impl Contexts {
    /// No contexts.
    pub fn new(alloc: Global) -> Contexts
        ensures { result ≡ [] }
    {
        Contexts {
            list: Vec::new(alloc),
        }
    }

    /// Gives a value under a key, before what was given under it earlier.
    pub fn set(&mut self, key: Key, value: Value) -> Result<(), NoMemory>
        ensures ok { OnOk result (self.new ≡ record { key = key; value = view_of value } ∷ self.old) }
        ensures err { OnErr result (self.new ≡ self.old) }
    {
        self.list.insert(0, (key, value))?;
        Ok(())
    }

    /// What was last given under a key, or `None` exactly where nothing was.
    pub fn find(&self, key: &Key) -> Option<&Value>
        ensures { option_map view_of (option_copied result) ≡ context_at self.now key.now }
    {
        find_context(&self.list, key)
    }
}

fn find_context<'a>(list: &'a [(Key, Value)], key: &Key) -> Option<&'a Value>
    ensures { option_map view_of (option_copied result) ≡ context_at (contexts_of list.now) key.now }
{
    for context in list {
        if is_same(&context.0, key) {
            return Some(&context.1);
        }
    }
    None
}

fn is_same(a: &Key, b: &Key) -> bool
    ensures { result ≡ same_key a.now b.now }
{
    match (a, b) {
        (Key::Num(a), Key::Num(b)) => *a == *b,
        (Key::Text(a), Key::Text(b)) => a.as_str() == b.as_str(),
        (Key::Bool(a), Key::Bool(b)) => *a == *b,
        _ => false,
    }
}
