// Prints what becomes of the steps of a test.
ghost use Rattle.std.specs.Prelude.{◌≡◌, ◌≤◌, Err, IfOk, OnOk, OnErr};
ghost use Rattle.sv_io.specs.Faults.{Rose};
ghost use Rattle.sv_io.specs.Sink.{with_bytes, AppendsFront};
ghost use Rattle.sv_run.specs.Answer as spec;
ghost use Rattle.sv_run.specs.Answer.{status_of, text_of};
ghost use Rattle.sv_run.specs.Job.{test_answer};
ghost use Rattle.sv_within.specs.Runnable.{IsRunnable};

use crate::job::Refusal;
use crate::kinds::EventsFault;
use crate::status::Status;
use std::alloc::Global;
use sv_checks::{DeedError, deeds_of};
use sv_code::Program;
use sv_io::{Sink, SinkError};
use sv_steps::Step;
use sv_test::{Ended, test};

// How a test ended.
fn status_by(ended: Ended) -> Status
    ensures { result ≡ spec.ended ended }
{
    match ended {
        Ended::Passed => Status::Ok,
        Ended::Failed => Status::Failed,
        Ended::Refused => Status::Turn,
    }
}

/// Prints what becomes of steps on the page of a program, and answers how that ended; or, where the selector of one is none, which one is the first,
/// and then no turn is played. What was written is the whole of it, or a prefix of it where a write failed or memory runs out.
pub fn test_steps<K: Sink>(
    alloc: Global,
    program: &Program,
    steps: &[Step],
    out: &mut K,
) -> Result<Status, SinkError>
    requires { IsRunnable program.now }
    ensures status { IfOk result (λ status. status ≡ status_of (test_answer program.now steps.now)) }
    ensures all { OnOk result (K.written out.new ≡ with_bytes (K.written out.old) (text_of (test_answer program.now steps.now))) }
    ensures front { OnErr result (AppendsFront (K.written out.old) (K.written out.new) (text_of (test_answer program.now steps.now))) }
    ensures later { K.faults out.old ≤ K.faults out.new }
    ensures failed { result ≡ Err SinkError.Failed → Rose (K.faults out.old) (K.faults out.new) }
{
    match deeds_of(alloc, steps) {
        Ok(deeds) => {
            let outcome = test(alloc, program, &deeds, out)?;
            Ok(status_by(outcome))
        }
        Err(DeedError::BadSelector(at)) => {
            let refusal = Refusal::Events(EventsFault::BadSelector(at));
            refusal.print(alloc, out)
        }
        Err(DeedError::NoMemory) => Err(SinkError::NoMemory),
    }
}
