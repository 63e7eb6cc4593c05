// A run, turn by turn.
ghost use Rattle.std.specs.Prelude.{◌≡◌, ◌≢◌, ◌≤◌, Bool, Err, is_err, IfOk, OnOk, OnErr};
ghost use Rattle.sv_document.specs.Numbers.{unnumbered};
ghost use Rattle.sv_flush.specs.Outcome.{Outcome};
ghost use Rattle.sv_flush.specs.Page.{blank};
ghost use Rattle.sv_io.specs.Faults.{Rose};
ghost use Rattle.sv_io.specs.Sink.{with_bytes, AppendsFront};
ghost use Rattle.sv_play.specs.Run as spec;
ghost use Rattle.sv_play.specs.Session.{shown};
ghost use Rattle.sv_session.specs.Plays.{PlaysBody, program_of};
ghost use Rattle.sv_session.specs.Ready.{IsReady};
ghost use Rattle.sv_session.specs.declared.stage.Stage.TheVariants.{New};
ghost use Rattle.sv_within.specs.Runnable.{IsRunnable};

use crate::flags::Flags;
use crate::turn::Printer;
use std::alloc::Global;
use sv_code::Program;
use sv_events::Event;
use sv_io::{Sink, SinkError, write_all};
use sv_session::{Session, TurnError, Turned};

/// Plays a program: mounts its page and lets each event come to it in turn, and prints each turn as it ends. Answers whether a turn was refused,
/// which ends the run. What was written is the whole of the run, or a prefix of it where a write failed or memory runs out.
pub fn play<K: Sink>(
    alloc: Global,
    program: &Program,
    events: &[Event],
    flags: Flags,
    out: &mut K,
) -> Result<bool, SinkError>
    requires { IsRunnable program.now }
    ensures status { IfOk result (λ refused. refused ≡ (spec.printed program.now flags events.now).refused) }
    ensures all { OnOk result (K.written out.new ≡ with_bytes (K.written out.old) (spec.printed program.now flags events.now).text) }
    ensures front { OnErr result (AppendsFront (K.written out.old) (K.written out.new) (spec.printed program.now flags events.now).text) }
    ensures later { K.faults out.old ≤ K.faults out.new }
    ensures failed { result ≡ Err SinkError.Failed → Rose (K.faults out.old) (K.faults out.new) }
{
    let printer = Printer { alloc, flags };
    let mut session = Session::begin(alloc, program)?;
    play_turns(&printer, &mut session, events, out)
}

// The same of a session that begins.
fn play_turns<K: Sink>(
    printer: &Printer,
    session: &mut Session<'_>,
    events: &[Event],
    out: &mut K,
) -> Result<bool, SinkError>
    requires page { session.old.page ≡ blank }
    requires stage { session.old.stage ≡ New }
    requires numbers { session.old.numbers ≡ unnumbered }
    requires ready { IsReady session.old }
    ensures status { IfOk result (λ refused. refused ≡ (spec.printed (program_of session.old) printer.now.flags events.now).refused) }
    ensures all { OnOk result (K.written out.new ≡ with_bytes (K.written out.old) (spec.printed (program_of session.old) printer.now.flags events.now).text) }
    ensures front { OnErr result (AppendsFront (K.written out.old) (K.written out.new) (spec.printed (program_of session.old) printer.now.flags events.now).text) }
    ensures later { K.faults out.old ≤ K.faults out.new }
    ensures failed { result ≡ Err SinkError.Failed → Rose (K.faults out.old) (K.faults out.new) }
{
    let answer = session.mount();
    if print_turn(printer, session, 0, answer, out)? {
        return Ok(true);
    }
    let mut number = 0;
    for event in events {
        number += 1;
        let answer = session.turn(event);
        if print_turn(printer, session, number, answer, out)? {
            return Ok(true);
        }
    }
    Ok(false)
}

// Prints a turn by its number, and answers whether it was refused.
#[tactic(auto, using(crate::proofs::Ready::ready_lines))]
fn print_turn<K: Sink>(
    printer: &Printer,
    session: &mut Session<'_>,
    number: u64,
    answer: Result<Turned, TurnError>,
    out: &mut K,
) -> Result<bool, SinkError>
    requires ready { IsReady session.old }
    requires played { (o : Outcome Bool) × PlaysBody answer session.old o }
    ensures ended { IfOk result (λ refused. refused ≡ is_err answer) }
    ensures status { IfOk result (λ refused. (o : Outcome Bool) → PlaysBody answer session.old o → refused ≡ spec.is_refused o) }
    ensures shown { OnOk result (session.new ≡ shown printer.now.flags answer session.old) }
    ensures all { OnOk result ((o : Outcome Bool) → PlaysBody answer session.old o
        → K.written out.new ≡ with_bytes (K.written out.old) (spec.turn_text (program_of session.old) printer.now.flags number session.old.numbers o)) }
    ensures front { OnErr result ((o : Outcome Bool) → PlaysBody answer session.old o
        → AppendsFront (K.written out.old) (K.written out.new) (spec.turn_text (program_of session.old) printer.now.flags number session.old.numbers o)) }
    ensures later { K.faults out.old ≤ K.faults out.new }
    ensures failed { result ≡ Err SinkError.Failed → Rose (K.faults out.old) (K.faults out.new) }
{
    match answer {
        Ok(turned) => {
            printer.number(session)?;
            let text = printer.page(session, number, &turned)?;
            write_all(out, &text)?;
            Ok(false)
        }
        Err(TurnError::Refused(refusal)) => {
            let text = printer.refusal(session, number, &refusal)?;
            write_all(out, text.as_bytes())?;
            Ok(true)
        }
        Err(TurnError::NoMemory) => Err(SinkError::NoMemory),
        Err(TurnError::Stopped) => unreachable!(),
    }
}
