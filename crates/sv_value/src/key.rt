// The keys of rows and contexts.
ghost use Rattle.std.specs.Prelude.{◌≡◌, IfOk};
ghost use Rattle.sv_value.specs.Key.{key_of};
ghost use Rattle.sv_value.specs.View.{view_of};

use crate::value::Value;
use sv_base::{NoMemory, Text};

/// A key of a row or a context: a number, a text or a truth value. The number 1 and the text `1` differ.
#[derive(Debug, PartialEq, Eq, PartialOrd, Ord, Drop)]
pub enum Key {
    Num(i64),
    Text(Text),
    Bool(bool),
}

impl Key {
    /// The key that the value is, or `None` exactly where it is no number, text or truth value.
    pub fn of(value: &Value) -> Result<Option<Key>, NoMemory>
        ensures { IfOk result (λ key. key ≡ key_of (view_of value.now)) }
    {
        Ok(match value {
            Value::Num(n) => Some(Key::Num(n.get())),
            Value::Text(text) => Some(Key::Text(text.share()?)),
            Value::Bool(b) => Some(Key::Bool(*b)),
            _ => None,
        })
    }

    /// The same key, of which nothing is copied.
    pub fn share(&self) -> Result<Key, NoMemory>
        ensures { IfOk result (λ key. key ≡ self.now) }
    {
        Ok(match self {
            Key::Num(n) => Key::Num(*n),
            Key::Text(text) => Key::Text(text.share()?),
            Key::Bool(b) => Key::Bool(*b),
        })
    }
}
