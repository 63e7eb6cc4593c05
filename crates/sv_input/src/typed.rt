// What an input takes of an event.
ghost use Rattle.std.specs.Prelude.{◌≡◌, Some, IfOk, OnOk, option_copied};
ghost use Rattle.sv_document.specs.Shown.{is_number_kind};
ghost use Rattle.sv_tokens.specs.declared.element.Typed.TheVariants as state;
ghost use Rattle.sv_input.specs.Typed as spec;

use crate::number::spelling;
use std::alloc::Global;
use sv_base::{NoMemory, Text};
use sv_document::{Directive, Element};
use sv_events::Event;
use sv_shapes::Showing;
use sv_tokens::Typed;

// A text as an input shows it.
fn shown_text(alloc: Global, numbers: bool, text: &Text) -> Result<Text, NoMemory>
    ensures { IfOk result (λ shown. shown ≡ spec.shown_text numbers text.now) }
{
    if numbers {
        spelling(alloc, text.as_str())
    } else {
        text.share()
    }
}

// A text that was typed.
fn taken_text(alloc: Global, element: &Element, text: &Text) -> Result<Option<Typed>, NoMemory>
    ensures { IfOk result (λ typed. typed ≡ Some (state.Text (spec.shown_text (is_number_kind element.now) text.now))) }
{
    let shown = shown_text(alloc, element.is_number_kind(), text)?;
    Ok(Some(Typed::Text(shown)))
}

/// What an element takes of an event: an `<input>` with a box whether it is checked, another one a text, of which an input of numbers
/// shows the number alone. `None` exactly where it is no input, or the event doesn't tell.
pub fn taken(alloc: Global, element: &Element, event: &Event) -> Result<Option<Typed>, NoMemory>
    ensures { IfOk result (λ typed. typed ≡ spec.taken element.now event.now) }
{
    if element.name.as_str() != "input" {
        return Ok(None);
    }
    if element.is_check_kind() {
        return Ok(event.checked.map(Typed::Checked));
    }
    match &event.value {
        Some(text) => taken_text(alloc, element, text),
        None => Ok(None),
    }
}

// Whether a directive assigns such a state to a variable.
fn assigns(typed: &Typed, directive: Directive) -> bool
    ensures { result ≡ spec.assigns typed.now directive }
{
    match (typed, directive) {
        (Typed::Text(_), Directive::BindValue(_)) => true,
        (Typed::Checked(_), Directive::BindChecked(_)) => true,
        _ => false,
    }
}

// Whether a variable keeps the states of this kind.
fn is_bound(typed: &Typed, element: &Element) -> bool
    ensures { result ≡ spec.is_bound typed.now element.now }
{
    let listeners = element.listeners.as_slice();
    listeners.iter().any(|listener| assigns(typed, listener.at))
}

/// Lays down what an element takes of an event, unless a variable keeps it. Where memory runs out, nothing changed.
pub fn lay_down(
    showing: &mut Showing,
    element: &Element,
    typed: Option<&Typed>,
) -> Result<(), NoMemory>
    ensures { OnOk result (showing.new ≡ spec.laid (option_copied typed.entry) element.now showing.old) }
{
    match typed {
        Some(typed) if !is_bound(typed, element) => showing.lay(element.inst, element.mark, typed),
        _ => Ok(()),
    }
}
