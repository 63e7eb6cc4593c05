// How wide names are, and where they stand.
ghost use Rattle.std.specs.Prelude.{◌≡◌, ◌<◌, ◌^◌};
ghost use Rattle.sv_resolve.specs.Places as spec;

use sv_ast::Ref;
use sv_base::{Name, Names, Span};
use sv_scopes::{Declared, Form, Use};

fn text_len(names: &Names, name: Name) -> usize
    ensures len { result ≡ spec.text_len names.now name }
    ensures bound { result < 2 ^ 63 }
{
    match names.text(name) {
        Some(found) => found.len(),
        None => 0,
    }
}

// How many bytes a name takes where it is used.
fn width(names: &Names, name: Ref) -> usize
    ensures { result ≡ spec.width names.now name }
{
    match name {
        Ref::Plain(name) => text_len(names, name),
        Ref::Store(name) => text_len(names, name) + 1,
    }
}

fn front(count: usize, span: Span) -> Span
    ensures { result ≡ spec.front count span }
{
    let to = (span.from as usize).saturating_add(count);
    Span {
        to: to.min(u32::MAX as usize) as u32,
        ..span
    }
}

fn end(count: usize, span: Span) -> Span
    ensures { result ≡ spec.end count span }
{
    let from = (span.to as usize).saturating_sub(count);
    Span {
        from: from as u32,
        ..span
    }
}

/// Where the name of a use stands.
pub fn name_place(names: &Names, found: &Use) -> Span
    ensures { result ≡ spec.name_place names.now found.now }
{
    let count = width(names, found.name);
    match found.form {
        Form::BumpedBefore => end(count, found.span),
        Form::Read | Form::Assigned | Form::BumpedBehind => front(count, found.span),
    }
}

/// Where a name that is declared stands, at the front of its declaration.
pub fn declaration_place(names: &Names, declared: &Declared) -> Span
    ensures { result ≡ spec.declaration_place names.now declared.now }
{
    front(text_len(names, declared.name), declared.span)
}
