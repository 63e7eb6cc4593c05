// Texts of names and of attributes.
ghost use Rattle.std.specs.Prelude.{◌≡◌};
ghost use Rattle.sv_sites.specs.Words as spec;

use sv_ast::{AttrKind, AttrPart, AttrParts, AttrValue, TagAttr};
use sv_base::{Name, Names};

/// The literal text of an attribute's value, which is its only part: empty where it has none.
pub(crate) fn literal(value: &AttrValue) -> &str
    ensures { result.now ≡ spec.literal value.now }
{
    match value {
        AttrValue::Bare => "",
        AttrValue::Parts(parts) => first_text(parts),
    }
}

fn first_text(parts: &AttrParts) -> &str
    ensures { result.now ≡ spec.begins_with_text parts.now }
{
    match parts.as_slice().first() {
        Some(AttrPart::Text(text)) => text.as_str(),
        Some(AttrPart::Show { .. }) | None => "",
    }
}

/// Whether a text is white space of markup alone.
pub(crate) fn is_blank(text: &str) -> bool
    ensures { result ≡ spec.is_blank text.now }
{
    text.as_bytes().iter().all(|b| is_white(*b))
}

fn is_white(b: u8) -> bool
    ensures { result ≡ spec.is_white b }
{
    b == b' ' || b == b'\t' || b == b'\n' || b == b'\r' || b == 12
}

fn is_plain(kind: AttrKind) -> bool
    ensures { result ≡ spec.is_plain kind }
{
    matches!(kind, AttrKind::Plain)
}

/// The literal `type` of a tag: empty where it has none.
pub(crate) fn input_type<'a>(names: &Names, attrs: &'a [TagAttr]) -> &'a str
    ensures { result.now ≡ spec.input_type names.now attrs.now }
{
    for attr in attrs {
        if is_plain(attr.kind) && names.is_text(attr.name, "type") {
            return literal(&attr.value);
        }
    }
    ""
}

fn is_checkbox(kind: &str) -> bool
    ensures { result ≡ spec.is_checkbox kind.now }
{
    kind == "checkbox"
}

fn is_checked_kind(kind: &str) -> bool
    ensures { result ≡ spec.is_checked_kind kind.now }
{
    is_checkbox(kind) || kind == "radio"
}

/// Whether a `bind:` of a name may stand on an element of some name and literal `type`.
pub(crate) fn may_bind(names: &Names, element: &str, kind: &str, name: Name) -> bool
    ensures { result ≡ spec.may_bind names.now element.now kind.now name }
{
    element == "input"
        && ((names.is_text(name, "value") && !is_checked_kind(kind))
            || (names.is_text(name, "checked") && is_checkbox(kind)))
}
