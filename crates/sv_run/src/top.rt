// The top call: it decides what the words and the files ask for, and prints it.
ghost use Rattle.std.specs.Prelude.{◌≡◌, ◌≤◌, IfOk, OnOk, OnErr, IfSome, if◌then◌else◌};
ghost use Rattle.sv_io.specs.Faults.{Rose};
ghost use Rattle.sv_io.specs.Sink.{with_bytes, AppendsFront};
ghost use Rattle.sv_run.specs.Answer.{status_of, text_of};
ghost use Rattle.sv_run.specs.Causes.{IsAnswer};
ghost use Rattle.sv_run.specs.Job.{answer_of, IsPlayable};
ghost use Rattle.sv_run.specs.Run.{RunAnswers, RunCompletes};
ghost use Rattle.sv_words.specs.Texts.{bytes_of};

use crate::generate::decide_gen;
use crate::job::{Job, Refusal};
use crate::laws::one_answer;
use crate::program::{Task, decide_program};
use crate::status::Status;
use crate::steps::test_steps;
use std::alloc::Global;
use sv_io::{Shelf, ShelfError, Sink, SinkError, write_all};
use sv_play::{play, summarize};
use sv_ssr::render;
use sv_words::{Command, command_of};

// What the words and the files ask for.
fn decide<F: Shelf>(alloc: Global, words: &[String], shelf: &mut F) -> Result<Job, ShelfError>
    ensures answer { IfOk result (λ job. IfSome (F.files shelf.old) (λ files. IsAnswer (bytes_of words.now) files (answer_of job))) }
    ensures playable { IfOk result IsPlayable }
    ensures later { F.faults shelf.old ≤ F.faults shelf.new }
    ensures failed { result ≡ Err ShelfError.Failed → Rose (F.faults shelf.old) (F.faults shelf.new) }
{
    let Some(command) = command_of(alloc, words)? else {
        return Ok(Job::Refuse(Refusal::Usage));
    };
    match command {
        Command::Run {
            root,
            events,
            flags,
        } => decide_program(alloc, root, Task::Play { events, flags }, shelf),
        Command::Check { root } => decide_program(alloc, root, Task::Accept, shelf),
        Command::Print { root } => decide_program(alloc, root, Task::List, shelf),
        Command::Render { root } => decide_program(alloc, root, Task::Render, shelf),
        Command::Test { root, events } => {
            decide_program(alloc, root, Task::Test { steps: events }, shelf)
        }
        Command::Gen { count } => decide_gen(alloc, count),
    }
}

// How a run of turns ended.
fn turned(refused: bool) -> Status
    ensures { result ≡ (if refused then Status.Turn else Status.Ok) }
{
    if refused { Status::Turn } else { Status::Ok }
}

// Prints the answer of the job.
fn answer<K: Sink>(alloc: Global, job: &Job, out: &mut K) -> Result<Status, SinkError>
    requires { IsPlayable job.now }
    ensures status { IfOk result (λ status. status ≡ status_of (answer_of job.now)) }
    ensures all { OnOk result (K.written out.new ≡ with_bytes (K.written out.old) (text_of (answer_of job.now))) }
    ensures front { OnErr result (AppendsFront (K.written out.old) (K.written out.new) (text_of (answer_of job.now))) }
    ensures later { K.faults out.old ≤ K.faults out.new }
    ensures failed { result ≡ Err SinkError.Failed → Rose (K.faults out.old) (K.faults out.new) }
{
    match job {
        Job::Refuse(refusal) => refusal.print(alloc, out),
        Job::Play {
            program,
            events,
            flags,
        } => {
            let refused = play(alloc, program, events, *flags, out)?;
            Ok(turned(refused))
        }
        Job::Sum { program, events } => {
            let refused = summarize(alloc, program, events, out)?;
            Ok(turned(refused))
        }
        Job::Accept => {
            write_all(out, b"accepted\n")?;
            Ok(Status::Ok)
        }
        Job::List(text) => {
            write_all(out, text.as_slice())?;
            Ok(Status::Ok)
        }
        Job::Render(program) => {
            let refused = render(alloc, program, out)?;
            Ok(turned(refused))
        }
        Job::Test { program, steps } => test_steps(alloc, program, steps, out),
    }
}

/// Reads the files that the words name, prints what they ask for, and answers how it ended.
pub fn run<F: Shelf, K: Sink>(alloc: Global, words: &[String], shelf: &mut F, out: &mut K) -> Status
    // Where the files are told: what was written is the output of an answer with this status that the words and the files
    // call for, nothing after a failed read, and nothing or a prefix of such an output where a write failed or memory runs out.
    ensures answers { IfSome (F.files shelf.old) (λ files.
        RunAnswers (bytes_of words.now) files (K.written out.old) (K.written out.new) result) }

    // Where no count of faults rose, each answer that they call for is given, unless memory runs out.
    ensures completes { IfSome (F.files shelf.old) (λ files.
        (Rose (F.faults shelf.old) (F.faults shelf.new) → ⊥) → (Rose (K.faults out.old) (K.faults out.new) → ⊥)
        → RunCompletes (bytes_of words.now) files (K.written out.old) (K.written out.new) result) }

    // A fault is answered only where a count rose in this call, and counts never fall.
    ensures read_fault { result ≡ Status.ReadFault → Rose (F.faults shelf.old) (F.faults shelf.new) }
    ensures read_nothing { result ≡ Status.ReadFault → K.written out.new ≡ K.written out.old }
    ensures write_fault { result ≡ Status.WriteFault → Rose (K.faults out.old) (K.faults out.new) }
    ensures shelf_later { F.faults shelf.old ≤ F.faults shelf.new }
    ensures sink_later { K.faults out.old ≤ K.faults out.new }
{
    one_answer();
    let job = match decide(alloc, words, shelf) {
        Ok(job) => job,
        Err(ShelfError::Failed) => return Status::ReadFault,
        Err(ShelfError::NoMemory) => return Status::NoMemory,
    };
    match answer(alloc, &job, out) {
        Ok(status) => status,
        Err(SinkError::Failed) => Status::WriteFault,
        Err(SinkError::NoMemory) => Status::NoMemory,
    }
}
