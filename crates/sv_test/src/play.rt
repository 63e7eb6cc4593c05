// A test, step by step.
ghost use Rattle.std.specs.Prelude.{◌≡◌, ◌≤◌, Err, map, IfOk, OnOk, OnErr};
ghost use Rattle.sv_checks.specs.Tells.{seen};
ghost use Rattle.sv_flush.specs.Page.{blank};
ghost use Rattle.sv_io.specs.Faults.{Rose};
ghost use Rattle.sv_io.specs.Sink.{with_bytes, AppendsFront};
ghost use Rattle.sv_session.specs.Plays.{program_of};
ghost use Rattle.sv_session.specs.declared.stage.Stage.TheVariants.{New};
ghost use Rattle.sv_play.specs.Refused.{LinesAscend};
ghost use Rattle.sv_within.specs.Runnable.{IsRunnable};
ghost use Rattle.sv_session.specs.Ready.{IsReady};
ghost use Rattle.sv_test.specs.PlaysTo.{PlaysTo};
ghost use Rattle.sv_test.specs.Tested as spec;

use std::alloc::Global;
use sv_base::NoMemory;
use sv_checks::{Deed, Report};
use sv_code::Program;
use sv_io::{Sink, SinkError, write_all};
use sv_parts::Refusal;
use sv_play::push_refused;
use sv_session::{Session, TurnError};

/// How a test ended.
#[derive(Clone, Copy, Debug, PartialEq, Eq)]
pub enum Ended {
    /// All expectations held.
    Passed,
    /// One didn't.
    Failed,
    /// A turn was refused.
    Refused,
}

fn outcome(failed: bool) -> Ended
    ensures { result ≡ spec.ended failed }
{
    if failed { Ended::Failed } else { Ended::Passed }
}

/// Plays a test: mounts the page of a program, and lets the deeds come to it in turn. Prints the line of each check, and at the end how many
/// expectations held; or, where a turn is refused, why, which ends the test. Answers how it ended. What was written is the whole of it, or a
/// prefix of it where a write failed or memory runs out.
#[tactic(auto, using(sv_play::proofs::Ready::runnable_lines))]
pub fn test<K: Sink>(
    alloc: Global,
    program: &Program,
    deeds: &[Deed<'_>],
    out: &mut K,
) -> Result<Ended, SinkError>
    requires { IsRunnable program.now }
    ensures status { IfOk result (λ ended. ended ≡ (spec.tested program.now (map seen deeds.now)).ended) }
    ensures all { OnOk result (K.written out.new ≡ with_bytes (K.written out.old) (spec.tested program.now (map seen deeds.now)).text) }
    ensures front { OnErr result (AppendsFront (K.written out.old) (K.written out.new) (spec.tested program.now (map seen deeds.now)).text) }
    ensures later { K.faults out.old ≤ K.faults out.new }
    ensures failed { result ≡ Err SinkError.Failed → Rose (K.faults out.old) (K.faults out.new) }
{
    let mut report = Report::new(alloc);
    match play_deeds(alloc, program, deeds, &mut report) {
        Ok(()) => {
            report.finish()?;
            write_all(out, report.text())?;
            Ok(outcome(report.is_failed()))
        }
        Err(TurnError::Refused(refusal)) => {
            let text = refused_text(alloc, program, &refusal, &report)?;
            write_all(out, &text)?;
            Ok(Ended::Refused)
        }
        Err(TurnError::NoMemory) => Err(SinkError::NoMemory),
        Err(TurnError::Stopped) => unreachable!(),
    }
}

// The lines so far, and the line of a refused turn behind them.
fn refused_text(
    alloc: Global,
    program: &Program,
    refusal: &Refusal,
    report: &Report,
) -> Result<Vec<u8>, NoMemory>
    requires { LinesAscend program.now }
    ensures { IfOk result (λ text. text.items ≡ spec.refused_text program.now refusal.now report.now) }
{
    let mut line = String::new(alloc);
    push_refused(&mut line, program, refusal)?;
    let mut text = Vec::new(alloc);
    text.extend_from_slice(report.text())?;
    text.extend_from_slice(line.as_bytes())?;
    Ok(text)
}

fn play_deeds(
    alloc: Global,
    program: &Program,
    deeds: &[Deed<'_>],
    report: &mut Report,
) -> Result<(), TurnError>
    requires { IsRunnable program.now }
    ensures { PlaysTo result report.new (spec.played program.now (map seen deeds.now) report.old) }
{
    let mut session = Session::begin(alloc, program)?;
    play_on(&mut session, deeds, report)
}

// The same on a session that begins.
fn play_on(
    session: &mut Session<'_>,
    deeds: &[Deed<'_>],
    report: &mut Report,
) -> Result<(), TurnError>
    requires page { session.old.page ≡ blank }
    requires stage { session.old.stage ≡ New }
    requires ready { IsReady session.old }
    ensures { PlaysTo result report.new (spec.played (program_of session.old) (map seen deeds.now) report.old) }
{
    match session.mount() {
        Ok(_) => {}
        Err(error) => return Err(error),
    }
    for (at, deed) in deeds.iter().enumerate() {
        match deed {
            Deed::Event(event) => match session.turn(event) {
                Ok(_) => continue,
                Err(error) => return Err(error),
            },
            Deed::Check(check) => report.check(at as u64, session.nodes(), check)?,
        }
    }
    Ok(())
}
