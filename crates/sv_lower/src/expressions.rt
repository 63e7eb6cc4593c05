// Expressions, and the bodies of arrows.
ghost use Rattle.std.specs.Prelude.{map, option_map};
ghost use Rattle.sv_lower.specs.Does.{Makes, each, given, within};
ghost use Rattle.sv_lower.specs.Inside.{made_in};
ghost use Rattle.sv_lower.specs.Lower as spec;
ghost use Rattle.sv_names.specs.Uses.{body_parts};

use crate::calls::called;
use crate::frames::{arrow_frame, put_framed};
use crate::inside::{Inside, known_at};
use crate::lists::{lower_exprs, lower_fields, lower_items, lower_links};
use crate::statements::lower_stmts;
use sv_ast::{Body, Entry, Expr, ExprKind, Field, Link, Named};
use sv_base::{NoMemory, Span};
use sv_code::{Code, CodeField, CodeItem, CodeKind, CodeLink, FunctionBody, Functions};
use sv_names::{Distinct, LocalScope};

/// The code of an expression where it stands. Each arrow in it is put behind the functions that there are, and becomes its number: an arrow
/// inside another comes before it. A call of `createEventDispatcher` becomes the number of a dispatcher in the same way. `NoMemory` comes at
/// `NoMemory`, or of a number below 2^32 for a function; some functions may have been added then.
#[cycle(lower)]
pub fn lower_expr(
    inside: &Inside<'_>,
    functions: &mut Functions,
    of: &Expr,
) -> Result<Code, NoMemory>
    ensures { Makes result (made_in inside.now (spec.of_expr of.now) functions.old) functions.new }
{
    let kind = lower_kind(inside, functions, of.span, of.kind.get())?;
    Ok(Code::new(inside.alloc, of.span, kind)?)
}

#[cycle(lower)]
fn lower_kind(
    inside: &Inside<'_>,
    functions: &mut Functions,
    span: Span,
    kind: &ExprKind,
) -> Result<CodeKind, NoMemory>
    ensures { Makes result (made_in inside.now ((spec.kind_made kind.now).makes span) functions.old) functions.new }
{
    match kind {
        ExprKind::Undefined => Ok(CodeKind::Undefined),
        ExprKind::Null => Ok(CodeKind::Null),
        ExprKind::Bool(value) => Ok(CodeKind::Bool(*value)),
        ExprKind::Num(value) => Ok(CodeKind::Num(*value)),
        ExprKind::Text(value) => Ok(CodeKind::Text(value.share()?)),
        ExprKind::Read(name) => Ok(CodeKind::Read(known_at(inside, *name))),
        ExprKind::List(items) => Ok(CodeKind::List(lower_items(
            inside,
            functions,
            items.as_slice(),
        )?)),
        ExprKind::Obj(fields) => Ok(CodeKind::Object(lower_fields(
            inside,
            functions,
            fields.as_slice(),
        )?)),
        ExprKind::Template(parts) => Ok(CodeKind::Template(lower_exprs(
            inside,
            functions,
            parts.as_slice(),
        )?)),
        ExprKind::Arrow { params, body } => Ok(CodeKind::Arrow(lower_arrow(
            inside,
            functions,
            span,
            params.as_slice(),
            body,
        )?)),
        ExprKind::Assign { target, op, value } => Ok(CodeKind::Assign {
            target: known_at(inside, *target),
            at: inside.tops.place(false, *target, span),
            op: *op,
            value: lower_expr(inside, functions, value)?,
        }),
        ExprKind::Bump { target, up, prefix } => Ok(CodeKind::Bump {
            target: known_at(inside, *target),
            at: inside.tops.place(*prefix, *target, span),
            up: *up,
            prefix: *prefix,
        }),
        ExprKind::Chain { first, rest } => {
            let first = lower_expr(inside, functions, first)?;
            let rest = lower_links(inside, functions, rest.as_slice())?;
            Ok(CodeKind::Chain { first, rest })
        }
        ExprKind::Not(of) => Ok(CodeKind::Not(lower_expr(inside, functions, of)?)),
        ExprKind::Minus(of) => Ok(CodeKind::Minus(lower_expr(inside, functions, of)?)),
        ExprKind::Choose { test, yes, no } => {
            let test = lower_expr(inside, functions, test)?;
            let yes = lower_expr(inside, functions, yes)?;
            let no = lower_expr(inside, functions, no)?;
            Ok(CodeKind::Choose { test, yes, no })
        }
        ExprKind::Member { of, word } => Ok(CodeKind::Member {
            of: lower_expr(inside, functions, of)?,
            property: inside.tops.property(*word),
        }),
        ExprKind::Index { of, at } => {
            let of = lower_expr(inside, functions, of)?;
            let at = lower_expr(inside, functions, at)?;
            Ok(CodeKind::Index { of, at })
        }
        ExprKind::Call { of, args } => {
            let of = lower_expr(inside, functions, of)?;
            let args = lower_exprs(inside, functions, args.as_slice())?;
            called(inside.alloc, functions, span, of, args)
        }
    }
}

/// The code of an expression that may be absent.
#[cycle(lower)]
pub(crate) fn lower_given(
    inside: &Inside<'_>,
    functions: &mut Functions,
    of: &Option<Expr>,
) -> Result<Option<Code>, NoMemory>
    ensures { Makes result (made_in inside.now (given (spec.perhaps (option_map spec.expr_made of.now))) functions.old) functions.new }
{
    match of {
        Some(of) => Ok(Some(lower_expr(inside, functions, of)?)),
        None => Ok(None),
    }
}

/// The code of an item of a list literal.
#[cycle(lower)]
pub(crate) fn lower_item(
    inside: &Inside<'_>,
    functions: &mut Functions,
    item: &Entry,
) -> Result<CodeItem, NoMemory>
    ensures { Makes result (made_in inside.now ((spec.entry_made item.now).makes) functions.old) functions.new }
{
    match item {
        Entry::One(value) => Ok(CodeItem::One(lower_expr(inside, functions, value)?)),
        Entry::Spread(value) => Ok(CodeItem::Spread(lower_expr(inside, functions, value)?)),
    }
}

/// The code of a field of an object literal.
#[cycle(lower)]
pub(crate) fn lower_field(
    inside: &Inside<'_>,
    functions: &mut Functions,
    of: &Field,
) -> Result<CodeField, NoMemory>
    ensures { Makes result (made_in inside.now ((spec.field_made of.now).makes) functions.old) functions.new }
{
    match of {
        Field::Pair { key, value } => {
            let key = key.share()?;
            let value = lower_expr(inside, functions, value)?;
            Ok(CodeField::Pair { key, value })
        }
        Field::Spread(value) => Ok(CodeField::Spread(lower_expr(inside, functions, value)?)),
    }
}

/// The code of an operator with its right side.
#[cycle(lower)]
pub(crate) fn lower_link(
    inside: &Inside<'_>,
    functions: &mut Functions,
    link: &Link,
) -> Result<CodeLink, NoMemory>
    ensures { Makes result (made_in inside.now ((spec.link_made link.now).makes) functions.old) functions.new }
{
    let right = lower_expr(inside, functions, &link.right)?;
    Ok(CodeLink { op: link.op, right })
}

// The number of an arrow.
#[cycle(lower)]
fn lower_arrow(
    inside: &Inside<'_>,
    functions: &mut Functions,
    span: Span,
    params: &[Named],
    body: &Body,
) -> Result<u32, NoMemory>
    ensures { Makes result (made_in inside.now (spec.numbered span params.now (body_parts body.now) (spec.body_made body.now).makes) functions.old) functions.new }
{
    let frame = arrow_frame(inside, span, params, body)?;
    let body = lower_body_in(inside, functions, &frame.names, body)?;
    put_framed(functions, frame, body)
}

// The body of an arrow in a scope of some names.
#[cycle(lower)]
fn lower_body_in(
    inside: &Inside<'_>,
    functions: &mut Functions,
    names: &Distinct,
    body: &Body,
) -> Result<FunctionBody, NoMemory>
    ensures { Makes result (made_in inside.now (within names.now (spec.body_made body.now).makes) functions.old) functions.new }
{
    let locals = LocalScope::inside(inside.locals, names);
    let inside = Inside {
        alloc: inside.alloc,
        tops: inside.tops,
        locals: &locals,
    };
    lower_body(&inside, functions, body)
}

#[cycle(lower)]
fn lower_body(
    inside: &Inside<'_>,
    functions: &mut Functions,
    body: &Body,
) -> Result<FunctionBody, NoMemory>
    ensures { Makes result (made_in inside.now ((spec.body_made body.now).makes) functions.old) functions.new }
{
    match body {
        Body::Value(value) => Ok(FunctionBody::Value(lower_expr(inside, functions, value)?)),
        Body::Block(stmts) => Ok(FunctionBody::Block(lower_stmts(
            inside,
            functions,
            stmts.as_slice(),
        )?)),
    }
}
