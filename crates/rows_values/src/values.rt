// Values: their texts and their truth, when two are the same or differ, their parts and their limits.
use crate::literals::value;
use std::alloc::Global;
use sv_base::NoMemory;
use sv_rows::yes_or_no;
use sv_value::{
    Inst, Key, Value, ValueFault, differs, make_func, make_list, same, text_of, truthy,
};

// An answer, or the fault in its place.
fn told(alloc: Global, answer: Result<String, ValueFault>) -> Result<String, NoMemory> {
    match answer {
        Ok(answer) => Ok(answer),
        Err(ValueFault::NoMemory) => Err(NoMemory),
        Err(fault) => Ok(fault.to_string(alloc)?),
    }
}

fn answer(alloc: Global, word: &str) -> Result<String, ValueFault> {
    Ok(String::from_str(alloc, word)?)
}

/// What a question on one value is answered.
pub fn one(alloc: Global, kind: &str, text: &str) -> Result<String, NoMemory> {
    match value(alloc, text) {
        Ok(value) => told(alloc, of_one(alloc, kind, value)),
        Err(fault) => told(alloc, Err(fault)),
    }
}

fn of_one(alloc: Global, kind: &str, value: Value) -> Result<String, ValueFault> {
    match kind {
        "text of" => text_of_shared(alloc, value),
        "is truthy" => answer(alloc, yes_or_no(truthy(&value))),
        "differs from itself" => answer(alloc, yes_or_no(differs(&value, &value))),
        "key of" => key(alloc, &value),
        "twice in a list" => twice(alloc, value),
        "held by a function" => held(alloc, value),
        _ => answer(alloc, "made"),
    }
}

// The text of a shared copy of a value.
fn text_of_shared(alloc: Global, value: Value) -> Result<String, ValueFault> {
    let shared = value.share()?;
    answer(alloc, text_of(alloc, &shared)?.as_str())
}

// The key that a value is, from a shared copy of it.
fn key(alloc: Global, value: &Value) -> Result<String, ValueFault> {
    match Key::of(value)? {
        Some(key) => key_told(alloc, &key.share()?),
        None => answer(alloc, "none"),
    }
}

fn key_told(alloc: Global, key: &Key) -> Result<String, ValueFault> {
    match key {
        Key::Num(number) => Ok(format!(in alloc; "the number {number}")?),
        Key::Text(text) => Ok(format!(in alloc; "the text {}", text.as_str())?),
        Key::Bool(holds) => Ok(format!(in alloc; "the truth {holds}")?),
    }
}

// Whether a list that holds a value twice is the same as a shared copy of it.
fn twice(alloc: Global, value: Value) -> Result<String, ValueFault> {
    let mut items = Vec::new(alloc);
    items.push(value.share()?)?;
    items.push(value)?;
    let list = make_list(alloc, items)?;
    answer(alloc, yes_or_no(same(&list, &list.share()?)))
}

// What a shared copy of a function tells that holds a value.
fn held(alloc: Global, value: Value) -> Result<String, ValueFault> {
    let owner = Inst { key: 4, number: 9 };
    let mut held = Vec::new(alloc);
    held.push(value.share()?)?;
    let made = make_func(alloc, 3, owner, held)?;
    function(alloc, &made.share()?, &value)
}

fn function(alloc: Global, made: &Value, held: &Value) -> Result<String, ValueFault> {
    let Value::Func(function) = made else {
        return answer(alloc, "no function");
    };
    let Inst { key, number } = function.owner();
    let holds = function
        .held()
        .first()
        .is_some_and(|first| same(first, held));
    Ok(format!(in alloc;
        "code {}, owner {key} {number}, the same: {}",
        function.code(),
        yes_or_no(holds)
    )?)
}

/// What a question on two values with ` | ` between is answered.
pub fn two(alloc: Global, kind: &str, row: &str) -> Result<String, NoMemory> {
    let (first, second) = row.split_once(" | ").unwrap_or((row, ""));
    told(alloc, of_two(alloc, kind, first, second))
}

fn of_two(alloc: Global, kind: &str, first: &str, second: &str) -> Result<String, ValueFault> {
    let first = value(alloc, first)?;
    let second = value(alloc, second)?;
    match kind {
        "differs" => answer(alloc, yes_or_no(differs(&first, &second))),
        _ => answer(alloc, yes_or_no(same(&first, &second))),
    }
}

/// The text of the field of a key, and how many fields there are: the key, ` | `, and the object.
pub fn field(alloc: Global, row: &str) -> Result<String, NoMemory> {
    let (key, text) = row.split_once(" | ").unwrap_or((row, ""));
    match value(alloc, text) {
        Ok(object) => told(alloc, field_of(alloc, &object, key)),
        Err(fault) => told(alloc, Err(fault)),
    }
}

fn field_of(alloc: Global, object: &Value, key: &str) -> Result<String, ValueFault> {
    let Value::Obj(object) = object else {
        return answer(alloc, "no object");
    };
    match object.get(key) {
        Some(field) => {
            let text = text_of(alloc, field)?;
            Ok(format!(in alloc; "{} of {}", text.as_str(), object.fields().len())?)
        }
        None => answer(alloc, "none"),
    }
}
