// What an element shows under a name.
ghost use Rattle.std.specs.Prelude.{◌≡◌, option_map, option_copied};
ghost use Rattle.sv_document.specs.Shown.{value_at};
ghost use Rattle.sv_select.specs.Shown as spec;

use sv_document::Element;
use sv_tokens::{Attr, Attribute, Typed};

// What the first attribute of a name shows.
fn value_at<'a>(attributes: &'a [Attribute], name: &str) -> Option<&'a Attr>
    ensures { option_copied result ≡ value_at name.now attributes.now }
{
    let found = attributes.iter().find(|a| a.name.as_str() == name)?;
    Some(&found.value)
}

// The text of an attribute; a flag has the empty one.
fn text_of(value: &Attr) -> &str
    ensures { result.now ≡ spec.text_of value.now }
{
    match value {
        Attr::Flag => "",
        Attr::Text(text) => text.as_str(),
    }
}

// What a user left under a name, if anything: a text, or none where a box isn't checked.
fn left_at<'a>(typed: &'a Option<Typed>, name: &str) -> Option<Option<&'a str>>
    ensures { option_map (option_map (λ t. t.now)) result ≡ spec.left_at name.now typed.now }
{
    match typed {
        None => None,
        Some(Typed::Text(text)) => {
            if name == "value" {
                Some(Some(text.as_str()))
            } else {
                None
            }
        }
        Some(Typed::Checked(checked)) => {
            if name == "checked" {
                Some(checked_text(*checked))
            } else {
                None
            }
        }
    }
}

// The text of a flag, where it is there.
fn checked_text<'a>(checked: bool) -> Option<&'a str>
    ensures { option_map (λ t. t.now) result ≡ spec.checked_text checked }
{
    if checked { Some("") } else { None }
}

// The text that an element shows under a name: what a user left there, or else that of its attribute; a flag shows the empty one.
pub(crate) fn shown_at<'a>(element: &'a Element, name: &str) -> Option<&'a str>
    ensures { option_map (λ t. t.now) result ≡ spec.shown_at name.now element.now }
{
    match left_at(&element.typed, name) {
        Some(left) => left,
        None => Some(text_of(value_at(element.attributes.as_slice(), name)?)),
    }
}
