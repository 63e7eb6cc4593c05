// What attributes name.
ghost use Rattle.std.specs.Prelude.{◌≡◌, option_map};
ghost use Rattle.sv_scopes.specs.Attributes as attributes;
ghost use Rattle.sv_sites.specs.Attributes as spec;
ghost use Rattle.sv_sites.specs.Hidden.{all_hidden};

use crate::hidden::{Hidden, is_hidden};
use crate::texts::literal;
use sv_ast::{AttrKind, AttrPart, AttrValue, ExprKind, Ref, TagAttr};

/// The text of a tag's `slot` attribute, where it has one.
pub(crate) fn slot_of(attrs: &[TagAttr]) -> Option<&str>
    ensures { option_map (λ text. text.now) result ≡ spec.slot_of attrs.now }
{
    for attr in attrs {
        if is_slot(attr.kind) {
            return Some(literal(&attr.value));
        }
    }
    None
}

fn is_slot(kind: AttrKind) -> bool
    ensures { result ≡ attributes.is_slot kind }
{
    matches!(kind, AttrKind::Slot)
}

fn part_name(part: &AttrPart) -> Option<Ref>
    ensures { result ≡ spec.part_name part.now }
{
    match part {
        AttrPart::Show { value, .. } => match value.kind.get() {
            ExprKind::Read(name) => Some(*name),
            _ => None,
        },
        AttrPart::Text(_) => None,
    }
}

fn first_name(parts: &[AttrPart]) -> Option<Ref>
    ensures { result ≡ spec.first_name parts.now }
{
    match parts.first() {
        Some(part) => part_name(part),
        None => None,
    }
}

// The name that a `bind:` binds: the one that it is given, or else its own.
fn bound_name(attr: &TagAttr) -> Option<Ref>
    ensures { result ≡ spec.bound_name attr.now attr.now.value }
{
    match &attr.value {
        AttrValue::Bare => Some(Ref::Plain(attr.name)),
        AttrValue::Parts(parts) => first_name(parts.as_slice()),
    }
}

/// The name of the top level that a `bind:` binds.
pub(crate) fn target(hidden: &Hidden<'_>, attr: &TagAttr) -> Option<Ref>
    ensures { result ≡ spec.bound_target (all_hidden hidden.now) attr.now }
{
    match bound_name(attr) {
        Some(name) => {
            if is_hidden(hidden, name) {
                None
            } else {
                Some(name)
            }
        }
        None => None,
    }
}
