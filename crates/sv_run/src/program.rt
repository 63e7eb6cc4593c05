// What is asked of a root component with all that it imports.
ghost use Rattle.std.specs.Prelude.{◌≡◌, ◌≤◌, IfOk, IfSome};
ghost use Rattle.sv_check.specs.Checked.{AreChecked};
ghost use Rattle.sv_io.specs.Faults.{Rose};
ghost use Rattle.sv_lines.specs.Lines.{LinesAscend};
ghost use Rattle.sv_run.specs.Causes.{IsDone, IsOver, IsPlayed, IsTested};
ghost use Rattle.sv_run.specs.Job.{answer_of, IsPlayable};

use crate::beside::{Found, find};
use crate::job::Job;
use crate::made::{listed, played, rendered, summed, tested};
use crate::refusals::{not_loaded, unclean};
use std::alloc::Global;
use sv_check::{Checked, check};
use sv_io::{Shelf, ShelfError};
use sv_load::load;
use sv_play::Flags;

/// What is asked of a program without a mistake.
#[derive(Clone, Copy)]
pub enum Task<'a> {
    /// That it has none.
    Accept,
    /// The listing of what it is compiled to.
    List,
    /// Its first page.
    Render,
    /// Its turns under the events of this file, with what the flags ask for.
    Play { events: &'a str, flags: Flags },
    /// What becomes of the steps of this file.
    Test { steps: &'a str },
    /// The sums of its turns under so many clicks.
    Sum { count: u32 },
}

/// The answer over a root component: it is loaded with all that it imports and checked, and only where it has no mistake the task is looked at.
pub fn decide_program<F: Shelf>(
    alloc: Global,
    root: &str,
    task: Task<'_>,
    shelf: &mut F,
) -> Result<Job, ShelfError>
    ensures answer { IfOk result (λ job. IfSome (F.files shelf.old) (λ files. IsOver files root.now (IsDone files task.entry) (answer_of job))) }
    ensures playable { IfOk result IsPlayable }
    ensures later { F.faults shelf.old ≤ F.faults shelf.new }
    ensures failed { result ≡ Err ShelfError.Failed → Rose (F.faults shelf.old) (F.faults shelf.new) }
{
    let bundle = match load(alloc, shelf, root) {
        Ok(bundle) => bundle,
        Err(error) => return not_loaded(alloc, &error),
    };
    match check(alloc, &bundle) {
        Ok(checked) => done(alloc, &checked, task, shelf),
        Err(error) => unclean(alloc, &bundle, &error),
    }
}

// The answer where the program is one without a mistake.
fn done<F: Shelf>(
    alloc: Global,
    checked: &Checked<'_>,
    task: Task<'_>,
    shelf: &mut F,
) -> Result<Job, ShelfError>
    requires checked { AreChecked checked.now.bundle.now checked.now.components }
    requires lines { LinesAscend checked.now.bundle.now.files }
    ensures answer { IfOk result (λ job. IfSome (F.files shelf.old) (λ files. IsDone files task.entry checked.now.bundle.now (answer_of job))) }
    ensures playable { IfOk result IsPlayable }
    ensures later { F.faults shelf.old ≤ F.faults shelf.new }
    ensures failed { result ≡ Err ShelfError.Failed → Rose (F.faults shelf.old) (F.faults shelf.new) }
{
    match task {
        Task::Accept => Ok(Job::Accept),
        Task::List => Ok(listed(alloc, checked)?),
        Task::Render => Ok(rendered(alloc, checked)?),
        Task::Play { events, flags } => under_events(alloc, checked, events, flags, shelf),
        Task::Test { steps } => under_steps(alloc, checked, steps, shelf),
        Task::Sum { count } => Ok(summed(alloc, checked, count)?),
    }
}

// Its turns under the events of a file.
fn under_events<F: Shelf>(
    alloc: Global,
    checked: &Checked<'_>,
    file: &str,
    flags: Flags,
    shelf: &mut F,
) -> Result<Job, ShelfError>
    requires checked { AreChecked checked.now.bundle.now checked.now.components }
    requires lines { LinesAscend checked.now.bundle.now.files }
    ensures answer { IfOk result (λ job. IfSome (F.files shelf.old) (λ files. IsPlayed files file.now flags checked.now.bundle.now (answer_of job))) }
    ensures playable { IfOk result IsPlayable }
    ensures later { F.faults shelf.old ≤ F.faults shelf.new }
    ensures failed { result ≡ Err ShelfError.Failed → Rose (F.faults shelf.old) (F.faults shelf.new) }
{
    match find(alloc, file, shelf)? {
        Found::Bytes(bytes) => Ok(played(alloc, checked, &bytes, flags)?),
        Found::Refused(refusal) => Ok(Job::Refuse(refusal)),
    }
}

// What becomes of the steps of a file.
fn under_steps<F: Shelf>(
    alloc: Global,
    checked: &Checked<'_>,
    file: &str,
    shelf: &mut F,
) -> Result<Job, ShelfError>
    requires checked { AreChecked checked.now.bundle.now checked.now.components }
    requires lines { LinesAscend checked.now.bundle.now.files }
    ensures answer { IfOk result (λ job. IfSome (F.files shelf.old) (λ files. IsTested files file.now checked.now.bundle.now (answer_of job))) }
    ensures playable { IfOk result IsPlayable }
    ensures later { F.faults shelf.old ≤ F.faults shelf.new }
    ensures failed { result ≡ Err ShelfError.Failed → Rose (F.faults shelf.old) (F.faults shelf.new) }
{
    match find(alloc, file, shelf)? {
        Found::Bytes(bytes) => Ok(tested(alloc, checked, &bytes)?),
        Found::Refused(refusal) => Ok(Job::Refuse(refusal)),
    }
}
