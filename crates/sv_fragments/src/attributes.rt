// Attributes and directives.
ghost use Rattle.std.specs.Prelude.{◌≡◌, ◌++◌, map, option_map, IfOk, OnOk};
ghost use Rattle.std.specs.List.{flat_map};
ghost use Rattle.sv_names.specs.Locals.{names_of};
ghost use Rattle.sv_scopes.specs.Attributes.{given_part};
ghost use Rattle.sv_fragments.specs.Around.{seen};
ghost use Rattle.sv_fragments.specs.Attributes as spec;
ghost use Rattle.sv_lower.specs.Does.{Makes, each};

use crate::around::{Around, Tables};
use crate::parts::{optional_part, part};
use std::alloc::Global;
use sv_ast::{AttrKind, AttrPart, AttrValue, Expr, ExprKind, Ref, TagAttr};
use sv_base::{Name, NoMemory};
use sv_code::{
    CellList, FragAttr, FragAttrs, FragValue, FragValuePart, FragValueParts, Handler, LetName,
    LetNames, Locals, Part, Reading,
};
use sv_names::LocalScope;
use sv_scopes::past;

/// What is made of the attributes and directives of a tag.
pub(crate) fn attrs_of(
    tables: &mut Tables,
    around: &Around<'_>,
    locals: &LocalScope<'_>,
    list: &[TagAttr],
) -> Result<FragAttrs, NoMemory>
    ensures { Makes result (spec.attrs list.now (seen around.now) (names_of locals.now) tables.old) tables.new }
{
    let mut attrs = FragAttrs::new(around.alloc);
    for of in list {
        if let Some(attr) = attr_of(tables, around, locals, of)? {
            attrs.push(attr)?;
        }
    }
    Ok(attrs)
}

fn attr_of(
    tables: &mut Tables,
    around: &Around<'_>,
    locals: &LocalScope<'_>,
    of: &TagAttr,
) -> Result<Option<FragAttr>, NoMemory>
    ensures { Makes result (spec.attr of.now (seen around.now) (names_of locals.now) tables.old) tables.new }
{
    match of.kind {
        AttrKind::Plain => Ok(Some(FragAttr::Plain {
            span: of.span,
            name: of.name,
            value: value_of(tables, around, locals, &of.value)?,
        })),
        AttrKind::On => {
            let handler = handler_of(tables, around, locals, of)?;
            Ok(Some(add_handler(tables, around.alloc, handler)?))
        }
        AttrKind::Bind => Ok(Some(FragAttr::Bind {
            span: of.span,
            name: of.name,
            target: directive(tables, around, locals, 5, of)?,
        })),
        AttrKind::Class => Ok(Some(FragAttr::Class {
            span: of.span,
            name: of.name,
            test: directive(tables, around, locals, 6, of)?,
        })),
        AttrKind::Let | AttrKind::Slot => Ok(None),
    }
}

fn handler_of(
    tables: &mut Tables,
    around: &Around<'_>,
    locals: &LocalScope<'_>,
    of: &TagAttr,
) -> Result<Handler, NoMemory>
    ensures { Makes result (spec.handler of.now (seen around.now) (names_of locals.now) tables.old) tables.new }
{
    Ok(Handler {
        span: of.span,
        name: of.name,
        modifiers: of.modifiers,
        listener: optional_part(tables, around, locals, expr_of(&of.value))?,
    })
}

// Puts a handler behind those that there are, where there is a number left below 2^32.
fn add_handler(tables: &mut Tables, alloc: Global, handler: Handler) -> Result<FragAttr, NoMemory>
    ensures { Makes result (spec.with_handler handler tables.old) tables.new }
{
    let number = next_number(tables.handlers.len())?;
    let reads = heard(alloc, &handler.listener)?;
    tables.handlers.push(handler)?;
    Ok(FragAttr::On {
        handler: number,
        reads,
    })
}

// What the expression of a handler looks at.
fn heard(alloc: Global, listener: &Option<Part>) -> Result<Reading, NoMemory>
    ensures { IfOk result (λ reading. reading ≡ spec.heard listener.now) }
{
    match listener {
        Some(part) => copy_of(alloc, &part.reads),
        None => Ok(Reading {
            cells: CellList::new(alloc),
            locals: Locals::new(alloc),
        }),
    }
}

fn copy_of(alloc: Global, reading: &Reading) -> Result<Reading, NoMemory>
    ensures { IfOk result (λ copy. copy ≡ reading.now) }
{
    Ok(Reading {
        cells: CellList::copy_of(alloc, reading.cells.as_slice())?,
        locals: Locals::copy_of(alloc, reading.locals.as_slice())?,
    })
}

/// The number of the next item of a list with this length, where it is below 2^32.
pub(crate) fn next_number(len: usize) -> Result<u32, NoMemory>
    ensures { IfOk result (λ number. number ≡ len) }
{
    match u32::try_from(len) {
        Ok(number) => Ok(number),
        Err(_) => Err(NoMemory),
    }
}

fn value_of(
    tables: &mut Tables,
    around: &Around<'_>,
    locals: &LocalScope<'_>,
    of: &AttrValue,
) -> Result<FragValue, NoMemory>
    ensures { Makes result (spec.value of.now (seen around.now) (names_of locals.now) tables.old) tables.new }
{
    match of {
        AttrValue::Bare => Ok(FragValue::Bare),
        AttrValue::Parts(parts) => Ok(FragValue::Parts(value_parts(
            tables,
            around,
            locals,
            parts.as_slice(),
        )?)),
    }
}

fn value_parts(
    tables: &mut Tables,
    around: &Around<'_>,
    locals: &LocalScope<'_>,
    list: &[AttrPart],
) -> Result<FragValueParts, NoMemory>
    ensures { Makes result (each (map spec.shown list.now) (seen around.now) (names_of locals.now) tables.old) tables.new }
{
    let mut parts = FragValueParts::new(around.alloc);
    for of in list {
        parts.push(value_part(tables, around, locals, of)?)?;
    }
    Ok(parts)
}

fn value_part(
    tables: &mut Tables,
    around: &Around<'_>,
    locals: &LocalScope<'_>,
    of: &AttrPart,
) -> Result<FragValuePart, NoMemory>
    ensures { Makes result (spec.shown of.now (seen around.now) (names_of locals.now) tables.old) tables.new }
{
    match of {
        AttrPart::Text(text) => Ok(FragValuePart::Text(text.share()?)),
        AttrPart::Show { value, .. } => {
            Ok(FragValuePart::Show(part(tables, around, locals, value)?))
        }
    }
}

// The expression that a directive has.
fn expr_of(value: &AttrValue) -> Option<&Expr>
    ensures { option_map (λ e. e.now) result ≡ spec.expr_of value.now }
{
    match value {
        AttrValue::Bare => None,
        AttrValue::Parts(parts) => first_expr(parts.as_slice()),
    }
}

fn first_expr(parts: &[AttrPart]) -> Option<&Expr>
    ensures { option_map (λ e. e.now) result ≡ spec.first_expr parts.now }
{
    for part in parts {
        if let AttrPart::Show { value, .. } = part {
            return Some(value);
        }
    }
    None
}

// The part of a directive: its expression, or the name behind so many bytes of it.
fn directive(
    tables: &mut Tables,
    around: &Around<'_>,
    locals: &LocalScope<'_>,
    front: u32,
    of: &TagAttr,
) -> Result<Part, NoMemory>
    ensures { Makes result (spec.directive front of.now (spec.expr_of of.now.value) (seen around.now) (names_of locals.now) tables.old) tables.new }
{
    match expr_of(&of.value) {
        Some(e) => part(tables, around, locals, e),
        None => {
            let name = ExprKind::Read(Ref::Plain(of.name));
            let e = Expr::new(around.alloc, past(front, of.span), name)?;
            part(tables, around, locals, &e)
        }
    }
}

/// The slot props that the `let:` names of a tag stand for.
pub(crate) fn lets_of(alloc: Global, list: &[TagAttr]) -> Result<LetNames, NoMemory>
    ensures { IfOk result (λ lets. lets ≡ spec.lets list.now) }
{
    let mut lets = LetNames::new(alloc);
    for of in list {
        add_let(&mut lets, of)?;
    }
    Ok(lets)
}

fn add_let(lets: &mut LetNames, of: &TagAttr) -> Result<(), NoMemory>
    ensures { OnOk result (lets.new ≡ lets.old ++ spec.let_of of.now) }
{
    if !matches!(of.kind, AttrKind::Let) {
        return Ok(());
    }
    match &of.value {
        AttrValue::Bare => lets.push(LetName {
            prop: of.name,
            local: of.name,
        }),
        AttrValue::Parts(parts) => add_let_parts(lets, of.name, parts.as_slice()),
    }
}

fn add_let_parts(lets: &mut LetNames, prop: Name, parts: &[AttrPart]) -> Result<(), NoMemory>
    ensures { OnOk result (lets.new ≡ lets.old ++ map (spec.let_name prop) (flat_map given_part parts.now)) }
{
    for part in parts {
        if let AttrPart::Show { value, .. } = part {
            if let ExprKind::Read(Ref::Plain(local)) = value.kind.get() {
                lets.push(LetName {
                    prop,
                    local: *local,
                })?;
            }
        }
    }
    Ok(())
}

/// The name that the `slot` attribute of a tag has, or the empty one.
pub(crate) fn slot_name(list: &[TagAttr]) -> &str
    ensures { result.now ≡ spec.slot_name list.now }
{
    for of in list {
        if matches!(of.kind, AttrKind::Slot) {
            return text_of(&of.value);
        }
    }
    ""
}

// The text at the front of a value.
fn text_of(value: &AttrValue) -> &str
    ensures { result.now ≡ spec.text_of value.now }
{
    match value {
        AttrValue::Bare => "",
        AttrValue::Parts(parts) => match parts.as_slice().first() {
            Some(AttrPart::Text(text)) => text.as_str(),
            Some(AttrPart::Show { .. }) | None => "",
        },
    }
}
