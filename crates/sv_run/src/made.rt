// What is answered of a program without a mistake.
ghost use Rattle.std.specs.Prelude.{◌≡◌, List, IfOk};
ghost use Rattle.sv_check.specs.Checked.{AreChecked};
ghost use Rattle.sv_checks.specs.Deeds.{Deed as AnyDeed};
ghost use Rattle.sv_events.specs.declared.event.Event.{Event as AnyEvent};
ghost use Rattle.sv_lines.specs.Lines.{LinesAscend};
ghost use Rattle.sv_run.specs.Beside.{bytes_events, bytes_deeds};
ghost use Rattle.sv_run.specs.Causes.{Compiles, IsListed, IsRendered, IsSummed, IsUnder, of_events, of_deeds};
ghost use Rattle.sv_run.specs.Job.{answer_of, IsPlayable};
ghost use Rattle.sv_within.specs.Runnable.{IsRunnable};

use crate::generate::clicks;
use crate::job::{Job, Refusal};
use crate::kinds::events_fault;
use std::alloc::Global;
use sv_base::NoMemory;
use sv_check::Checked;
use sv_code::Program;
use sv_compile::compile;
use sv_events::read_events;
use sv_listing::listing;
use sv_play::Flags;
use sv_steps::read_steps;

// What it is compiled to.
fn compiled(alloc: Global, checked: &Checked<'_>) -> Result<Program, NoMemory>
    requires checked { AreChecked checked.now.bundle.now checked.now.components }
    requires lines { LinesAscend checked.now.bundle.now.files }
    ensures compiles { IfOk result (Compiles checked.now.bundle.now) }
    ensures runnable { IfOk result IsRunnable }
{
    compile(alloc, checked)
}

/// The listing of what it is compiled to.
#[tactic(auto, using(sv_code::proofs::Compiled::lines_ascend))]
pub fn listed(alloc: Global, checked: &Checked<'_>) -> Result<Job, NoMemory>
    requires checked { AreChecked checked.now.bundle.now checked.now.components }
    requires lines { LinesAscend checked.now.bundle.now.files }
    ensures answer { IfOk result (λ job. IsListed checked.now.bundle.now (answer_of job)) }
    ensures playable { IfOk result IsPlayable }
{
    let program = compile(alloc, checked)?;
    Ok(Job::List(listing(alloc, &program)?))
}

/// Its first page.
pub fn rendered(alloc: Global, checked: &Checked<'_>) -> Result<Job, NoMemory>
    requires checked { AreChecked checked.now.bundle.now checked.now.components }
    requires lines { LinesAscend checked.now.bundle.now.files }
    ensures answer { IfOk result (λ job. IsRendered checked.now.bundle.now (answer_of job)) }
    ensures playable { IfOk result IsPlayable }
{
    Ok(Job::Render(compiled(alloc, checked)?))
}

/// The sums of its turns under so many clicks.
pub fn summed(alloc: Global, checked: &Checked<'_>, count: u32) -> Result<Job, NoMemory>
    requires checked { AreChecked checked.now.bundle.now checked.now.components }
    requires lines { LinesAscend checked.now.bundle.now.files }
    ensures answer { IfOk result (λ job. IsSummed count checked.now.bundle.now (answer_of job)) }
    ensures playable { IfOk result IsPlayable }
{
    let program = compiled(alloc, checked)?;
    let events = clicks(alloc, count)?;
    Ok(Job::Sum { program, events })
}

/// Its turns under the events that the bytes of an events file tell.
pub fn played(
    alloc: Global,
    checked: &Checked<'_>,
    bytes: &[u8],
    flags: Flags,
) -> Result<Job, NoMemory>
    requires checked { AreChecked checked.now.bundle.now checked.now.components }
    requires lines { LinesAscend checked.now.bundle.now.files }
    ensures answer { IfOk result (λ job. IsUnder (List AnyEvent) (bytes_events bytes.now) (of_events flags) checked.now.bundle.now (answer_of job)) }
    ensures playable { IfOk result IsPlayable }
{
    match read_events(alloc, bytes) {
        Ok(events) => {
            let program = compiled(alloc, checked)?;
            Ok(Job::Play {
                program,
                events,
                flags,
            })
        }
        Err(error) => Ok(Job::Refuse(Refusal::Events(events_fault(error)?))),
    }
}

/// What becomes of the steps that the bytes of their file tell.
pub fn tested(alloc: Global, checked: &Checked<'_>, bytes: &[u8]) -> Result<Job, NoMemory>
    requires checked { AreChecked checked.now.bundle.now checked.now.components }
    requires lines { LinesAscend checked.now.bundle.now.files }
    ensures answer { IfOk result (λ job. IsUnder (List AnyDeed) (bytes_deeds bytes.now) of_deeds checked.now.bundle.now (answer_of job)) }
    ensures playable { IfOk result IsPlayable }
{
    match read_steps(alloc, bytes) {
        Ok(steps) => {
            let program = compiled(alloc, checked)?;
            Ok(Job::Test { program, steps })
        }
        Err(error) => Ok(Job::Refuse(Refusal::Events(events_fault(error)?))),
    }
}
