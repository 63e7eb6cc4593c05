// The lines of a turn.
ghost use Rattle.std.specs.Prelude.{◌≡◌, ◌++◌, IfOk, OnOk, string_bytes, flat_map};
ghost use Rattle.sv_play.specs.Lines as spec;

use std::alloc::Global;
use sv_base::{NoMemory, Text};
use sv_session::Turned;

/// The line of a turn by its number; a turn without a target says so.
#[tactic(auto, unfolding(crate::specs::Lines::turn_line))]
pub fn turn_line(alloc: Global, number: u64, target: bool) -> Result<String, NoMemory>
    ensures { IfOk result (λ line. string_bytes line ≡ spec.turn_line number target) }
{
    let note = note(target);
    Ok(format!(in alloc; "turn {number}{note}\n")?)
}

fn note(target: bool) -> &'static str
    ensures { result.now ≡ spec.note target }
{
    if target { "" } else { " (no target)" }
}

/// Appends what was logged.
pub fn push_log(text: &mut String, lines: &[Text]) -> Result<(), NoMemory>
    ensures { OnOk result (string_bytes text.new ≡ string_bytes text.old ++ flat_map spec.log_line lines.now) }
{
    for line in lines {
        push_line(text, line)?;
    }
    Ok(())
}

#[tactic(auto, unfolding(crate::specs::Lines::log_line))]
fn push_line(text: &mut String, line: &Text) -> Result<(), NoMemory>
    ensures { OnOk result (string_bytes text.new ≡ string_bytes text.old ++ spec.log_line line.now) }
{
    text.push_str("log: ")?;
    text.push_str(line.as_str())?;
    Ok(text.push_str("\n")?)
}

/// The line behind a page: how many expressions of markup were evaluated, and how many instances and subscriptions there are.
#[tactic(auto, unfolding(crate::specs::Lines::tally_line))]
pub fn tally_line(alloc: Global, turned: &Turned) -> Result<String, NoMemory>
    ensures { IfOk result (λ line. string_bytes line ≡ spec.tally_line turned.now) }
{
    let Turned {
        evaluations,
        instances,
        subscriptions,
        ..
    } = *turned;
    Ok(format!(in alloc;
        "tally {evaluations} instances {instances} subscriptions {subscriptions}\n"
    )?)
}

/// The line for the sums of a run: how many events came, how many expressions were evaluated, and how long the last page is.
#[tactic(auto, unfolding(crate::specs::Lines::summary_line))]
pub fn summary_line(
    alloc: Global,
    count: usize,
    evaluations: u64,
    bytes: usize,
) -> Result<String, NoMemory>
    ensures { IfOk result (λ line. string_bytes line ≡ spec.summary_line count evaluations bytes) }
{
    Ok(format!(in alloc; "gen {count}: {count} turns, {evaluations} evaluations, {bytes} bytes\n")?)
}
