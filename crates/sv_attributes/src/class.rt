// The class of an element that has directives `class:`.
ghost use Rattle.std.specs.Prelude.{◌≡◌, ◌++◌, option_copied, IfOk, OnOk};
ghost use Rattle.std.specs.List.{list_any, position_or_len};
ghost use Rattle.sv_attributes.specs.Class as spec;

use crate::attr::{name_text, place, value_attr};
use crate::classes::{with_word, words};
use crate::element::{Attrs, state_at};
use crate::values::joined;
use std::alloc::Global;
use sv_base::{Name, NoMemory, Text};
use sv_code::{FragAttr, Program};
use sv_list::Items;
use sv_shapes::{AttrState, Texts};
use sv_tokens::{Attr, Attribute};

/// Whether a name is `class`.
pub fn is_class_name(program: &Program, name: Name) -> bool
    ensures { result ≡ spec.is_class_name program.now name }
{
    let names = &program.names;
    names.is_text(name, "class")
}

/// Whether there is a directive `class:`.
pub fn has_directive(attrs: &[FragAttr]) -> bool
    ensures { result ≡ list_any spec.is_directive attrs.now }
{
    for attr in attrs {
        if matches!(attr, FragAttr::Class { .. }) {
            return true;
        }
    }
    false
}

// Whether it is one of those that make up the class.
fn is_of_class(program: &Program, attr: &FragAttr) -> bool
    ensures { result ≡ spec.is_of_class program.now attr.now }
{
    match attr {
        FragAttr::Plain { name, .. } => is_class_name(program, *name),
        FragAttr::On { .. } | FragAttr::Bind { .. } => false,
        FragAttr::Class { .. } => true,
    }
}

// The number of the first of those that make up the class.
fn class_number(program: &Program, attrs: &[FragAttr]) -> usize
    ensures { result ≡ position_or_len (spec.is_of_class program.now) attrs.now }
{
    for (number, attr) in attrs.iter().enumerate() {
        if is_of_class(program, attr) {
            return number;
        }
    }
    attrs.len()
}

// Whether it is an attribute `class`.
fn is_class(program: &Program, attr: &FragAttr) -> bool
    ensures { result ≡ spec.is_class program.now attr.now }
{
    match attr {
        FragAttr::Plain { name, .. } => is_class_name(program, *name),
        _ => false,
    }
}

// The words of what an attribute shows.
fn words_in(alloc: Global, shown: Option<Attr>) -> Result<Texts, NoMemory>
    ensures { IfOk result (λ all. all ≡ spec.words_in shown) }
{
    match shown {
        Some(Attr::Text(text)) => words(alloc, text.as_str()),
        _ => Ok(Items::new(alloc)),
    }
}

// The words of an attribute `class`, by what it came to.
fn own_words(alloc: Global, attr: &FragAttr, state: Option<&AttrState>) -> Result<Texts, NoMemory>
    ensures { IfOk result (λ all. all ≡ spec.own_words attr.now (option_copied state.entry)) }
{
    match attr {
        FragAttr::Plain { value, .. } => {
            let shown = value_attr(alloc, false, value, state)?;
            words_in(alloc, shown)
        }
        _ => Ok(Items::new(alloc)),
    }
}

// The words of the first attribute `class`.
fn first_words(attrs: &Attrs<'_>) -> Result<Texts, NoMemory>
    ensures { IfOk result (λ all. all ≡ spec.first_words attrs.now.program.now attrs.now.states.now 0 attrs.now.list.now) }
{
    for number in 0..attrs.list.len() {
        let attr = &attrs.list[number];
        if is_class(attrs.program, attr) {
            return own_words(attrs.alloc, attr, state_at(attrs.states, number));
        }
    }
    Ok(Items::new(attrs.alloc))
}

// Whether a directive holds.
fn holds(state: Option<&AttrState>) -> bool
    ensures { result ≡ spec.holds (option_copied state.entry) }
{
    match state {
        Some(AttrState::Holds(holds)) => *holds,
        _ => false,
    }
}

// The words once a directive was heard.
fn heard(
    attrs: &Attrs<'_>,
    attr: &FragAttr,
    state: Option<&AttrState>,
    words: Texts,
) -> Result<Texts, NoMemory>
    ensures { IfOk result (λ now. now ≡ spec.heard attrs.now.program.now attr.now (option_copied state.entry) words) }
{
    let FragAttr::Class { name, .. } = attr else {
        return Ok(words);
    };
    let word = name_text(attrs.program, *name);
    with_word(attrs.alloc, words.as_slice(), word, holds(state))
}

// The words once all directives were heard in turn.
fn class_words(attrs: &Attrs<'_>) -> Result<Texts, NoMemory>
    ensures { IfOk result (λ all. all ≡ spec.class_words attrs.now.program.now attrs.now.states.now attrs.now.list.now) }
{
    let mut all = first_words(attrs)?;
    for number in 0..attrs.list.len() {
        let state = state_at(attrs.states, number);
        all = heard(attrs, &attrs.list[number], state, all)?;
    }
    Ok(all)
}

// What the words show.
fn words_attr(alloc: Global, words: &[Text]) -> Result<Option<Attr>, NoMemory>
    ensures { IfOk result (λ attr. attr ≡ spec.words_attr words.now) }
{
    if words.is_empty() {
        return Ok(None);
    }
    let text = joined(alloc, " ", words)?;
    Ok(Some(Attr::Text(text)))
}

/// Adds the class with this number, if the first of those has it that make it up.
pub fn place_class(
    attrs: &Attrs<'_>,
    number: usize,
    all: &mut Items<Attribute>,
) -> Result<(), NoMemory>
    ensures { OnOk result (all.new ≡ all.old ++ spec.class_at attrs.now.program.now attrs.now.list.now attrs.now.states.now number) }
{
    if class_number(attrs.program, attrs.list) != number {
        return Ok(());
    }
    let words = class_words(attrs)?;
    let value = words_attr(attrs.alloc, words.as_slice())?;
    place(attrs.alloc, all, number, "class", value)
}
