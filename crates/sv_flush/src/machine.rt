// What all that happens to a page needs.
ghost use Rattle.std.specs.Prelude.{◌≡◌};
ghost use Rattle.sv_flush.specs.Answers as spec;
ghost use Rattle.sv_flush.specs.Meets.{Meets};
ghost use Rattle.sv_flush.specs.Outcome.{work};

use crate::page::Page;
use std::alloc::Global;
use sv_base::Span;
use sv_code::Program;
use sv_meaning::EvalError;
use sv_ops::{Fault, FaultKind};
use sv_parts::{PatchError, Refusal};

/// The machine that plays a program. What it makes takes its memory from `alloc`.
#[derive(Clone, Copy)]
pub struct Machine<'a> {
    pub alloc: Global,
    pub program: &'a Program,
}

/// What scripts answer, as the page's answer.
pub fn told(answer: Result<(), EvalError>) -> Result<(), PatchError>
    ensures { result ≡ spec.told answer }
{
    match answer {
        Ok(()) => Ok(()),
        Err(EvalError::Fault(fault)) => Err(PatchError::Refused(Refusal::Fault(fault))),
        Err(EvalError::NoMemory) => Err(PatchError::NoMemory),
    }
}

/// An instance would be too deep; the tag that makes it stands at this place.
pub fn too_deep(span: Span) -> PatchError
    ensures { result ≡ PatchError.Refused (Refusal.Fault (record { kind = FaultKind.TreeDepth; span = span })) }
{
    PatchError::Refused(Refusal::Fault(Fault {
        kind: FaultKind::TreeDepth,
        span,
    }))
}

/// Takes a unit of work; `Budget` comes exactly where none is left.
pub fn work(page: &mut Page) -> Result<(), PatchError>
    ensures { Meets result page.new (work page.old) }
{
    if page.counters.spend_work(1) {
        Ok(())
    } else {
        Err(PatchError::Refused(Refusal::Budget))
    }
}
