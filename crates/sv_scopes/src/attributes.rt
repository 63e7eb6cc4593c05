// What is found in the attributes and directives of a tag.
ghost use Rattle.std.specs.Prelude.{◌≡◌, [], ◌∷◌, map, OnOk};
ghost use Rattle.std.specs.List.{flat_map};
ghost use Rattle.sv_scopes.specs.Parts.{Finds, in_turn, declaring};
ghost use Rattle.sv_scopes.specs.Attributes as spec;

use crate::found::Found;
use crate::scope::{Binding, Declared, Form, Role};
use crate::script::{find, use_of};
use sv_ast::{AttrKind, AttrPart, AttrValue, ExprKind, Ref, TagAttr};
use sv_base::{Name, NoMemory, Span};

/// A span without its first `count` bytes. Places end below 2^32.
pub fn past(count: u32, span: Span) -> Span
    ensures { result ≡ spec.past count span }
{
    Span {
        from: span.from.saturating_add(count),
        ..span
    }
}

/// Notes that a name is read.
pub(crate) fn note_read(found: &mut Found, name: Ref, span: Span) -> Result<(), NoMemory>
    ensures { OnOk result (Finds found.old found.new (spec.reading name span)) }
{
    found.note(use_of(name, Form::Read, span, Role::Alone))
}

/// Finds what is in attributes.
pub(crate) fn find_attributes(found: &mut Found, attrs: &[TagAttr]) -> Result<(), NoMemory>
    ensures { OnOk result (Finds found.old found.new (spec.attributes attrs.now)) }
{
    for attr in attrs {
        find_attribute(found, attr)?;
    }
    Ok(())
}

fn find_attribute(found: &mut Found, attr: &TagAttr) -> Result<(), NoMemory>
    ensures { OnOk result (Finds found.old found.new (spec.attribute attr.now)) }
{
    if is_let(attr) {
        return Ok(());
    }
    match &attr.value {
        AttrValue::Bare => find_bare(found, attr.kind, attr.name, attr.span),
        AttrValue::Parts(parts) => find_parts(found, parts.as_slice()),
    }
}

fn find_bare(found: &mut Found, kind: AttrKind, name: Name, span: Span) -> Result<(), NoMemory>
    ensures { OnOk result (Finds found.old found.new (spec.bare kind name span)) }
{
    match kind {
        AttrKind::Class => note_read(found, Ref::Plain(name), past(6, span)),
        AttrKind::Bind => note_read(found, Ref::Plain(name), past(5, span)),
        AttrKind::Plain | AttrKind::On | AttrKind::Let | AttrKind::Slot => Ok(()),
    }
}

fn find_parts(found: &mut Found, parts: &[AttrPart]) -> Result<(), NoMemory>
    ensures { OnOk result (Finds found.old found.new (in_turn (map spec.part parts.now))) }
{
    for part in parts {
        find_part(found, part)?;
    }
    Ok(())
}

fn find_part(found: &mut Found, part: &AttrPart) -> Result<(), NoMemory>
    ensures { OnOk result (Finds found.old found.new (spec.part part.now)) }
{
    match part {
        AttrPart::Text(_) => Ok(()),
        AttrPart::Show { value, .. } => find(found, value, Role::Alone),
    }
}

fn is_let(attr: &TagAttr) -> bool
    ensures { result ≡ spec.is_let attr.now.kind }
{
    matches!(attr.kind, AttrKind::Let)
}

/// Whether a tag has a `slot` attribute, so that it is a part of its own of the content of a component (Svelte 4 docs,
/// '`<slot name="name">`').
pub fn is_slotted(attrs: &[TagAttr]) -> bool
    ensures { result ≡ spec.is_slotted attrs.now }
{
    attrs.iter().any(|attr| matches!(attr.kind, AttrKind::Slot))
}

/// Notes the `let:` names of a tag.
pub(crate) fn declare_lets(found: &mut Found, attrs: &[TagAttr]) -> Result<(), NoMemory>
    ensures { OnOk result (Finds found.old found.new (declaring (spec.lets attrs.now))) }
{
    for attr in attrs {
        declare_let(found, attr)?;
    }
    Ok(())
}

fn declare_let(found: &mut Found, attr: &TagAttr) -> Result<(), NoMemory>
    ensures { OnOk result (Finds found.old found.new (declaring (spec.let_names attr.now))) }
{
    if !is_let(attr) {
        return Ok(());
    }
    match &attr.value {
        AttrValue::Bare => declare_local(found, attr.name, past(4, attr.span)),
        AttrValue::Parts(parts) => declare_given(found, parts.as_slice()),
    }
}

fn declare_local(found: &mut Found, name: Name, span: Span) -> Result<(), NoMemory>
    ensures { OnOk result (Finds found.old found.new (declaring (spec.local name span ∷ []))) }
{
    found.declare(Declared {
        name,
        span,
        by: Binding::Local,
    })
}

fn declare_given(found: &mut Found, parts: &[AttrPart]) -> Result<(), NoMemory>
    ensures { OnOk result (Finds found.old found.new (declaring (flat_map spec.given_part parts.now))) }
{
    for part in parts {
        declare_part(found, part)?;
    }
    Ok(())
}

fn declare_part(found: &mut Found, part: &AttrPart) -> Result<(), NoMemory>
    ensures { OnOk result (Finds found.old found.new (declaring (spec.given_part part.now))) }
{
    match part {
        AttrPart::Show { value, .. } => match value.kind.get() {
            ExprKind::Read(Ref::Plain(name)) => declare_local(found, *name, value.span),
            _ => Ok(()),
        },
        AttrPart::Text(_) => Ok(()),
    }
}
