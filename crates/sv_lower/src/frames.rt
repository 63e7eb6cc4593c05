// Functions, but for the code of their bodies.
ghost use Rattle.std.specs.Prelude.{◌≡◌, length, map, IfOk};
ghost use Rattle.sv_lower.specs.Does.{Makes};
ghost use Rattle.sv_lower.specs.Frames.{frame};
ghost use Rattle.sv_lower.specs.Lower as spec;
ghost use Rattle.sv_names.specs.Locals.{names_of};
ghost use Rattle.sv_names.specs.Uses.{together, body_parts, stmt_parts};

use crate::inside::Inside;
use sv_ast::{Body, NameList, Named, Stmt};
use sv_base::{NoMemory, Span};
use sv_code::{Function, FunctionBody, Functions, Locals};
use sv_names::{Distinct, arrow_scope, block_scope, locals_among, names_in_arrow, names_in_block};

/// A function, but for the code of its body: where it is written, its parameters, the names of its scope, the locals that it takes along, and
/// what its body declares.
#[derive(Drop)]
pub(crate) struct Frame {
    pub(crate) span: Span,
    pub(crate) params: NameList,
    pub(crate) names: Distinct,
    pub(crate) captured: Locals,
    pub(crate) declares: Locals,
}

/// The frame of an arrow.
pub(crate) fn arrow_frame(
    inside: &Inside<'_>,
    span: Span,
    params: &[Named],
    body: &Body,
) -> Result<Frame, NoMemory>
    ensures { IfOk result (λ made. made ≡ frame span params.now (body_parts body.now) (names_of inside.now.locals.now)) }
{
    let alloc = inside.alloc;
    let free = names_in_arrow(alloc, params, body)?;
    let own = arrow_scope(alloc, &[], body)?;
    Ok(Frame {
        span,
        params: NameList::copy_of(alloc, params)?,
        names: arrow_scope(alloc, params, body)?,
        captured: locals_among(alloc, inside.locals, free.as_slice())?,
        declares: own.to_names(alloc)?,
    })
}

/// The frame of a function that a statement declares.
pub(crate) fn function_frame(
    inside: &Inside<'_>,
    span: Span,
    params: &[Named],
    stmts: &[Stmt],
) -> Result<Frame, NoMemory>
    ensures { IfOk result (λ made. made ≡ frame span params.now (together (map stmt_parts stmts.now)) (names_of inside.now.locals.now)) }
{
    let alloc = inside.alloc;
    let free = names_in_block(alloc, params, stmts)?;
    let own = block_scope(alloc, &[], stmts)?;
    Ok(Frame {
        span,
        params: NameList::copy_of(alloc, params)?,
        names: block_scope(alloc, params, stmts)?,
        captured: locals_among(alloc, inside.locals, free.as_slice())?,
        declares: own.to_names(alloc)?,
    })
}

/// Puts the function with this frame and this body behind those that there are: its number.
pub(crate) fn put_framed(
    functions: &mut Functions,
    frame: Frame,
    body: FunctionBody,
) -> Result<u32, NoMemory>
    ensures { Makes result (spec.put (record { span = frame.span; params = frame.params; captured = frame.captured; declares = frame.declares; body = body }) functions.old) functions.new }
{
    let Frame {
        span,
        params,
        captured,
        declares,
        ..
    } = frame;
    put(
        functions,
        Function {
            span,
            params,
            captured,
            declares,
            body,
        },
    )
}

/// Puts a function behind those that there are: its number, where there is one left below 2^32.
pub(crate) fn put(functions: &mut Functions, function: Function) -> Result<u32, NoMemory>
    ensures { Makes result (spec.put function functions.old) functions.new }
{
    let number = next_number(functions)?;
    functions.push(function)?;
    Ok(number)
}

fn next_number(functions: &Functions) -> Result<u32, NoMemory>
    ensures { IfOk result (λ number. number ≡ length functions.now) }
{
    match u32::try_from(functions.len()) {
        Ok(number) => Ok(number),
        Err(_) => Err(NoMemory),
    }
}
