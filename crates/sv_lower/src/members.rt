// The words that mean something behind a point besides the name of a field.
ghost use Rattle.std.specs.Prelude.{◌≡◌, ◌≤◌, ◌++◌, length, map, IfOk, OnOk};
ghost use Rattle.sv_lower.specs.Tops.{method_in};
ghost use Rattle.sv_lower.specs.Words as spec;

use std::alloc::Global;
use sv_base::built_in::{LIST_CALLS, LOG, MATH_FUNCTIONS, VALUE_CALLS};
use sv_base::{Name, Names, NoMemory};
use sv_code::Method;
use sv_list::Items;

/// A name, and what it means behind a point.
#[derive(Clone, Copy, Debug, PartialEq, Eq)]
pub struct Word {
    pub name: Name,
    pub method: Method,
}

/// What `LIST_CALLS` are.
const LIST_METHODS: [Method; 8] = [
    Method::Map,
    Method::Filter,
    Method::Some,
    Method::Every,
    Method::Find,
    Method::FindIndex,
    Method::ForEach,
    Method::Reduce,
];

/// What `VALUE_CALLS` are.
const VALUE_METHODS: [Method; 9] = [
    Method::Includes,
    Method::IndexOf,
    Method::Slice,
    Method::Concat,
    Method::Join,
    Method::Trim,
    Method::StartsWith,
    Method::EndsWith,
    Method::Split,
];

/// What `MATH_FUNCTIONS` are.
const MATH_METHODS: [Method; 5] = [
    Method::Abs,
    Method::Min,
    Method::Max,
    Method::Floor,
    Method::Trunc,
];

/// How long a list or a text is; the calls of a store; and that of `console`.
const OTHER_WORDS: [&str; 4] = ["length", "set", "update", LOG];

/// What `OTHER_WORDS` are.
const OTHER_METHODS: [Method; 4] = [Method::Length, Method::Set, Method::Update, Method::Log];

/// The words of a program of these names.
pub(crate) fn words(alloc: Global, names: &Names) -> Result<Items<Word>, NoMemory>
    ensures { IfOk result (λ words. words ≡ spec.words names.now) }
{
    let mut words = Items::new(alloc);
    add_words(&mut words, names, &LIST_CALLS, &LIST_METHODS)?;
    add_words(&mut words, names, &VALUE_CALLS, &VALUE_METHODS)?;
    add_words(&mut words, names, &MATH_FUNCTIONS, &MATH_METHODS)?;
    add_words(&mut words, names, &OTHER_WORDS, &OTHER_METHODS)?;
    Ok(words)
}

fn add_words(
    words: &mut Items<Word>,
    names: &Names,
    texts: &[&str],
    methods: &[Method],
) -> Result<(), NoMemory>
    ensures { OnOk result (words.new ≡ words.old ++ spec.words_in names.now (map (λ text. text.now) texts.now) methods.now) }
{
    for (text, method) in texts.iter().zip(methods) {
        add_word(words, names, text, *method)?;
    }
    Ok(())
}

fn add_word(
    words: &mut Items<Word>,
    names: &Names,
    text: &str,
    method: Method,
) -> Result<(), NoMemory>
    ensures { OnOk result (words.new ≡ words.old ++ spec.word names.now text.now method) }
{
    if let Some(name) = names.find(text) {
        words.push(Word { name, method })?;
    }
    Ok(())
}

/// What a name means behind a point.
pub(crate) fn method_of(words: &[Word], name: Name) -> Option<Method>
    ensures { result ≡ method_in words.now name }
{
    for word in words {
        if word.name == name {
            return Some(word.method);
        }
    }
    None
}
