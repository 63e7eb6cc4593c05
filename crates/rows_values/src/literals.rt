// Values as they are written in rows: `null`, `undefined`, `true`, `false`, `store` with its number, whole numbers, texts in double quotes, lists in square
// brackets and objects in braces, with no spaces round their commas and colons.
use std::alloc::Global;
use std::mem;
use sv_base::{Num, Text};
use sv_value::{Value, ValueFault, make_list, make_obj, make_text};

// What is read of a list or an object whose end is still to come: the keys of an object, and the values.
#[derive(Drop)]
struct Inside {
    keys: Vec<Text>,
    values: Vec<Value>,
}

// What is read of a value: what encloses the place, the outermost first, and the word that was begun there.
#[derive(Drop)]
struct Reader {
    alloc: Global,
    around: Vec<Inside>,
    word: String,
}

/// The value that a text writes. What isn't written so is `undefined`.
pub fn value(alloc: Global, text: &str) -> Result<Value, ValueFault> {
    let mut reader = Reader::new(alloc)?;
    for c in text.chars() {
        reader.read(c)?;
    }
    reader.finished()
}

impl Inside {
    fn new(alloc: Global) -> Inside {
        Inside {
            keys: Vec::new(alloc),
            values: Vec::new(alloc),
        }
    }

    // The fields of an object.
    fn into_fields(self, alloc: Global) -> Result<Vec<(Text, Value)>, ValueFault> {
        let Inside { keys, values } = self;
        Ok(keys.into_iter().zip(values).collect(alloc)?)
    }
}

impl Reader {
    fn new(alloc: Global) -> Result<Reader, ValueFault> {
        let mut around = Vec::new(alloc);
        around.push(Inside::new(alloc))?;
        Ok(Reader {
            alloc,
            around,
            word: String::new(alloc),
        })
    }

    fn read(&mut self, c: char) -> Result<(), ValueFault> {
        match c {
            '[' | '{' => Ok(self.around.push(Inside::new(self.alloc))?),
            ':' => self.end_key(),
            ',' => self.end_word(),
            ']' => self.end_list(),
            '}' => self.end_object(),
            _ => Ok(self.word.push(c)?),
        }
    }

    fn take_word(&mut self) -> String {
        mem::replace(&mut self.word, String::new(self.alloc))
    }

    fn push(&mut self, value: Value) -> Result<(), ValueFault> {
        if let Some(inside) = self.around.last_mut() {
            inside.values.push(value)?;
        }
        Ok(())
    }

    fn end_key(&mut self) -> Result<(), ValueFault> {
        let key = Text::new(self.alloc, self.take_word().as_str())?;
        if let Some(inside) = self.around.last_mut() {
            inside.keys.push(key)?;
        }
        Ok(())
    }

    // Ends a word, if one was begun.
    fn end_word(&mut self) -> Result<(), ValueFault> {
        let word = self.take_word();
        if word.is_empty() {
            return Ok(());
        }
        let value = plain(self.alloc, word.as_str())?;
        self.push(value)
    }

    // Ends what encloses the place, and gives what was read of it.
    fn leave(&mut self) -> Result<Inside, ValueFault> {
        self.end_word()?;
        Ok(self.around.pop().unwrap_or(Inside::new(self.alloc)))
    }

    fn end_list(&mut self) -> Result<(), ValueFault> {
        let Inside { values, .. } = self.leave()?;
        let list = make_list(self.alloc, values)?;
        self.push(list)
    }

    fn end_object(&mut self) -> Result<(), ValueFault> {
        let fields = self.leave()?.into_fields(self.alloc)?;
        let object = make_obj(self.alloc, fields)?;
        self.push(object)
    }

    // The one value that was read.
    fn finished(mut self) -> Result<Value, ValueFault> {
        let Inside { mut values, .. } = self.leave()?;
        Ok(values.pop().unwrap_or(Value::Undefined))
    }
}

// A value that holds no others.
fn plain(alloc: Global, word: &str) -> Result<Value, ValueFault> {
    match word {
        "null" => Ok(Value::Null),
        "true" => Ok(Value::Bool(true)),
        "false" => Ok(Value::Bool(false)),
        _ => match word.strip_prefix('"') {
            Some(text) => make_text(alloc, text.strip_suffix('"').unwrap_or(text)),
            None => Ok(store_or_number(word)),
        },
    }
}

// A store by its number, as in `store1`; without one it is the first.
fn store_or_number(word: &str) -> Value {
    match word.strip_prefix("store") {
        Some(rest) => Value::Store(rest.parse::<u32>().unwrap_or(0)),
        None => number(word),
    }
}

fn number(word: &str) -> Value {
    match word.parse::<i64>().ok().and_then(Num::new) {
        Some(number) => Value::Num(number),
        None => Value::Undefined,
    }
}
