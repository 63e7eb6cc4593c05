// The lines over what is printed.
ghost use Rattle.std.specs.Prelude.{◌≡◌, IfOk, string_bytes};
ghost use Rattle.sv_heads.specs.Lines as spec;

use std::alloc::Global;
use sv_base::NoMemory;

/// The line of a turn by its number, from 0 on; a turn without a target says so.
#[tactic(auto, unfolding(crate::specs::Lines::turn_line))]
pub fn turn_line(alloc: Global, number: u64, target: bool) -> Result<String, NoMemory>
    ensures { IfOk result (λ line. string_bytes line ≡ spec.turn_line number target) }
{
    let note = note(target);
    Ok(format!(in alloc; "turn {number}{note}\n")?)
}

fn note(target: bool) -> &'static str
    ensures { result.now ≡ spec.note target }
{
    if target { "" } else { " (no target)" }
}

/// The line over what a watcher reports, by its place, from 1 on.
#[tactic(auto, unfolding(crate::specs::Lines::watch_line))]
pub fn watch_line(alloc: Global, number: usize) -> Result<String, NoMemory>
    ensures { IfOk result (λ line. string_bytes line ≡ spec.watch_line number) }
{
    Ok(format!(in alloc; "watch {number}\n")?)
}
