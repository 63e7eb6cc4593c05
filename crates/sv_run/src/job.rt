// What a run is to do.
ghost use Rattle.std.specs.Prelude.{◌≡◌, ◌≤◌, Err, IfOk, OnOk, OnErr, string_bytes};
ghost use Rattle.sv_io.specs.Faults.{Rose};
ghost use Rattle.sv_io.specs.Sink.{with_bytes, AppendsFront};
ghost use Rattle.sv_run.specs.Answer.{status_of, text_of};
ghost use Rattle.sv_run.specs.Job.{refusal_of};

use crate::kinds::EventsFault;
use crate::status::Status;
use std::alloc::Global;
use sv_base::NoMemory;
use sv_code::Program;
use sv_events::Event;
use sv_io::{Sink, SinkError, write_all};
use sv_play::Flags;
use sv_steps::Step;

/// Why no turn is run.
#[derive(Drop)]
pub enum Refusal {
    /// The words are no form.
    Usage,
    /// The file of this name isn't there.
    Missing(String),
    /// The file of this name is refused as a whole, by a word.
    Source(String, &'static str),
    /// The file of this name is refused at a place, by a word.
    SourceAt {
        file: String,
        line: usize,
        column: usize,
        word: &'static str,
    },
    /// The file of events or steps is refused.
    Events(EventsFault),
}

/// What a run is to do.
#[derive(Drop)]
pub enum Job {
    /// Print one line.
    Refuse(Refusal),
    /// Print the turns of the program under these events, with what the flags ask for.
    Play {
        program: Program,
        events: Vec<Event>,
        flags: Flags,
    },
    /// Print what the turns of the program under these events come to.
    Sum {
        program: Program,
        events: Vec<Event>,
    },
    /// Say that the program is accepted.
    Accept,
    /// Print this listing of the program, in UTF-8.
    List(Vec<u8>),
    /// Print the first page of the program.
    Render(Program),
    /// Print what becomes of these steps on the page of the program, or which of them has no selector.
    Test {
        program: Program,
        steps: Vec<Step>,
    },
}

const USAGE: &str =
    "usage: svp run ROOT EVENTS [--log] [--watch] [--serials] [--tally] | check ROOT | print ROOT | gen N | render ROOT | test ROOT EVENTS\n";

impl Refusal {
    /// Prints its line, and gives the status with which the run ends. What was written is the line, or a prefix of it where a write failed or memory
    /// runs out.
    pub fn print<K: Sink>(&self, alloc: Global, out: &mut K) -> Result<Status, SinkError>
        ensures status { IfOk result (λ status. status ≡ status_of (refusal_of self.now)) }
        ensures all { OnOk result (K.written out.new ≡ with_bytes (K.written out.old) (text_of (refusal_of self.now))) }
        ensures front { OnErr result (AppendsFront (K.written out.old) (K.written out.new) (text_of (refusal_of self.now))) }
        ensures later { K.faults out.old ≤ K.faults out.new }
        ensures failed { result ≡ Err SinkError.Failed → Rose (K.faults out.old) (K.faults out.new) }
    {
        let line = self.line(alloc)?;
        write_all(out, line.as_bytes())?;
        Ok(self.status())
    }

    // The status with which the run ends.
    fn status(&self) -> Status
        ensures { result ≡ status_of (refusal_of self.now) }
    {
        match self {
            Refusal::Usage => Status::Usage,
            Refusal::Missing(_) => Status::Missing,
            Refusal::Source(..) | Refusal::SourceAt { .. } => Status::Source,
            Refusal::Events(_) => Status::Events,
        }
    }

    // The line that is printed.
    #[tactic(auto, unfolding(crate::specs::Answer::usage_line))]
    fn line(&self, alloc: Global) -> Result<String, NoMemory>
        ensures { IfOk result (λ line. string_bytes line ≡ text_of (refusal_of self.now)) }
    {
        match self {
            Refusal::Usage => Ok(String::from_str(alloc, USAGE)?),
            Refusal::Missing(name) => Ok(format!(in alloc; "missing: {name}\n")?),
            Refusal::Source(file, word) => Ok(format!(in alloc; "source: {file}: {word}\n")?),
            Refusal::SourceAt {
                file,
                line,
                column,
                word,
            } => Ok(format!(in alloc; "source: {file}:{line}:{column}: {word}\n")?),
            Refusal::Events(fault) => Ok(format!(in alloc; "events: {fault}\n")?),
        }
    }
}
