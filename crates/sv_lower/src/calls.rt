// Calls.
ghost use Rattle.std.specs.Prelude.{◌≡◌};
ghost use Rattle.sv_code.specs.declared.code.CodeKind.{out-CodeKind};
ghost use Rattle.sv_lower.specs.Does.{Makes};
ghost use Rattle.sv_lower.specs.Lower as spec;

use crate::frames::put;
use std::alloc::Global;
use sv_ast::NameList;
use sv_base::{NoMemory, Span};
use sv_code::{Code, CodeKind, Codes, Function, FunctionBody, Functions, Known, Life, Locals};

/// A call at some place: one of `createEventDispatcher` makes a dispatcher.
pub(crate) fn called(
    alloc: Global,
    functions: &mut Functions,
    span: Span,
    of: Code,
    args: Codes,
) -> Result<CodeKind, NoMemory>
    ensures { Makes result (spec.called span (of, args) functions.old) functions.new }
{
    if !reads_dispatcher(&of) {
        return Ok(CodeKind::Call { of, args });
    }
    let at = of.span;
    let number = put(functions, dispatcher(alloc, span))?;
    Ok(CodeKind::Dispatcher { number, at, args })
}

fn reads_dispatcher(of: &Code) -> bool
    ensures { result ≡ spec.reads_dispatcher (out-CodeKind of.now.kind) }
{
    matches!(
        of.kind.get(),
        CodeKind::Read(Known::Life(Life::CreateEventDispatcher))
    )
}

fn dispatcher(alloc: Global, span: Span) -> Function
    ensures { result ≡ spec.dispatcher span }
{
    Function {
        span,
        params: NameList::new(alloc),
        captured: Locals::new(alloc),
        declares: Locals::new(alloc),
        body: FunctionBody::Dispatch,
    }
}
