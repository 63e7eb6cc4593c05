// Where a name stands in an expression that assigns it.
ghost use Rattle.std.specs.Prelude.{◌≡◌, ◌<◌, ◌^◌, true, false};
ghost use Rattle.sv_lower.specs.Places as spec;

use sv_ast::Ref;
use sv_base::{Name, Names, Span};

fn text_len(names: &Names, name: Name) -> usize
    ensures len { result ≡ spec.text_len names.now name }
    ensures bound { result < 2 ^ 63 }
{
    match names.text(name) {
        Some(found) => found.len(),
        None => 0,
    }
}

/// How many bytes a name takes where it is used.
pub(crate) fn width(names: &Names, name: Ref) -> usize
    ensures { result ≡ spec.width names.now name }
{
    match name {
        Ref::Plain(name) => text_len(names, name),
        Ref::Store(name) => text_len(names, name) + 1,
    }
}

/// So many bytes at the end of a span, or at its front.
pub(crate) fn place(at_end: bool, count: usize, span: Span) -> Span
    ensures { result ≡ spec.place at_end count span }
{
    if at_end {
        end(count, span)
    } else {
        front(count, span)
    }
}

fn front(count: usize, span: Span) -> Span
    ensures { result ≡ spec.place false count span }
{
    let to = (span.from as usize).saturating_add(count);
    Span {
        to: to.min(span.to as usize) as u32,
        ..span
    }
}

fn end(count: usize, span: Span) -> Span
    ensures { result ≡ spec.place true count span }
{
    let from = (span.to as usize).saturating_sub(count);
    Span {
        from: from.max(span.from as usize) as u32,
        ..span
    }
}
