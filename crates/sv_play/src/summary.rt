// The sums of a run.
ghost use Rattle.std.specs.Prelude.{◌≡◌, ◌≤◌, ◌+◌, Err, IfOk, OnOk, OnErr};
ghost use Rattle.sv_flush.specs.Page.{blank};
ghost use Rattle.sv_io.specs.Faults.{Rose};
ghost use Rattle.sv_io.specs.Sink.{with_bytes, AppendsFront};
ghost use Rattle.sv_play.specs.Summary as spec;
ghost use Rattle.sv_play.specs.Sums.{SumsTo};
ghost use Rattle.sv_session.specs.Plays.{program_of};
ghost use Rattle.sv_session.specs.Ready.{IsReady};
ghost use Rattle.sv_session.specs.declared.stage.Stage.TheVariants.{New};
ghost use Rattle.sv_within.specs.Runnable.{IsRunnable};

use crate::lines::summary_line;
use crate::refused::write_refused;
use std::alloc::Global;
use sv_base::NoMemory;
use sv_code::Program;
use sv_events::Event;
use sv_io::{Sink, SinkError, write_all};
use sv_session::{Session, TurnError, Turned};

/// What a run comes to: the expressions of markup that were evaluated in all its turns, and the bytes of its last page.
#[derive(Clone, Copy, Debug, PartialEq, Eq)]
pub struct Sums {
    pub evaluations: u64,
    pub bytes: usize,
}

/// Plays a program as `play` does, and prints one line at its end: how many events came, and what the run came to; or why a turn was refused.
/// Answers whether one was.
#[tactic(auto, using(crate::proofs::Ready::runnable_lines))]
pub fn summarize<K: Sink>(
    alloc: Global,
    program: &Program,
    events: &[Event],
    out: &mut K,
) -> Result<bool, SinkError>
    requires { IsRunnable program.now }
    ensures status { IfOk result (λ refused. refused ≡ (spec.summary program.now events.now).refused) }
    ensures all { OnOk result (K.written out.new ≡ with_bytes (K.written out.old) (spec.summary program.now events.now).text) }
    ensures front { OnErr result (AppendsFront (K.written out.old) (K.written out.new) (spec.summary program.now events.now).text) }
    ensures later { K.faults out.old ≤ K.faults out.new }
    ensures failed { result ≡ Err SinkError.Failed → Rose (K.faults out.old) (K.faults out.new) }
{
    match sum_up(alloc, program, events) {
        Ok(sums) => {
            let line = summary_line(alloc, events.len(), sums.evaluations, sums.bytes)?;
            write_all(out, line.as_bytes())?;
            Ok(false)
        }
        Err(TurnError::Refused(refusal)) => {
            write_refused(alloc, program, &refusal, out)?;
            Ok(true)
        }
        Err(TurnError::NoMemory) => Err(SinkError::NoMemory),
        Err(TurnError::Stopped) => unreachable!(),
    }
}

// What a run comes to, or its first refusal.
fn sum_up(alloc: Global, program: &Program, events: &[Event]) -> Result<Sums, TurnError>
    requires { IsRunnable program.now }
    ensures { SumsTo result (spec.sums program.now events.now) }
{
    let mut session = Session::begin(alloc, program)?;
    sum_turns(&mut session, events)
}

// The same of a session that begins.
fn sum_turns(session: &mut Session<'_>, events: &[Event]) -> Result<Sums, TurnError>
    requires page { session.old.page ≡ blank }
    requires stage { session.old.stage ≡ New }
    requires ready { IsReady session.old }
    ensures { SumsTo result (spec.sums (program_of session.old) events.now) }
{
    let mut evaluations = match session.mount() {
        Ok(turned) => turned.evaluations,
        Err(error) => return Err(error),
    };
    for event in events {
        match session.turn(event) {
            Ok(turned) => evaluations = more(evaluations, turned)?,
            Err(error) => return Err(error),
        }
    }
    let page = session.html(false)?;
    Ok(Sums {
        evaluations,
        bytes: page.len(),
    })
}

// The evaluations of a turn among those before it.
fn more(evaluations: u64, turned: Turned) -> Result<u64, NoMemory>
    ensures { IfOk result (λ sum. sum ≡ evaluations + turned.evaluations) }
{
    evaluations.checked_add(turned.evaluations).ok_or(NoMemory)
}
