// What `gen N` asks for: a run of a large program that is made here.
ghost use Rattle.std.specs.Prelude.{◌≡◌, ◌≢◌, IfOk, string_bytes};
ghost use Rattle.sv_run.specs.Causes.{IsOver, IsSummed};
ghost use Rattle.sv_run.specs.Generated as spec;
ghost use Rattle.sv_run.specs.Job.{answer_of, IsPlayable};

use crate::job::Job;
use crate::program::{Task, decide_program};
use std::alloc::Global;
use sv_base::{NoMemory, Text};
use sv_events::{Event, Target};
use sv_io::{Got, Shelf, ShelfError};

/// The name of the file of the generated program.
pub const ROOT: &str = "App.svelte";

/// Its text, which has the number twice: before it, between, and behind.
pub const HEAD: &str = "<script>\n  let x = 1;\n  let rows = [];\n  let i = 0;\n  while (i < ";

pub const MIDDLE: &str =
    ") { rows = [...rows, { id: i, n: 0 }]; i += 1; }\n  function step() {\n    x = x * 48271 % 2147483647;\n    const k = x % ";

pub const TAIL: &str =
    ";\n    const hit = rows[k];\n    rows = [{ id: hit.id, n: hit.n + 1 }, ...rows.filter(r => r.id !== hit.id)];\n  }\n</script>\n<button id=\"s\" on:click={step}>{x}</button><ul>{#each rows as r (r.id)}<li>{r.id}:{r.n}</li>{/each}</ul>\n";

// A shelf with the one file of the generated program.
#[derive(Drop)]
struct Generated {
    text: String,
}

impl Shelf for Generated {
    ghost use Rattle.std.specs.Prelude.{Some, ◌∷◌, [], string_bytes};
    ghost use Rattle.sv_run.specs.Generated.{root_name};

    ghost files = { λ g. Some ((root_name, string_bytes g.text) ∷ []) };

    ghost faults = { λ _. 0 };

    fn read(&mut self, alloc: Global, name: &str, limit: usize) -> Result<Got, ShelfError> {
        if name != ROOT {
            return Ok(Got::Missing);
        }
        if self.text.len() > limit {
            return Ok(Got::TooLong);
        }
        Ok(Got::Bytes(Vec::from_slice(alloc, self.text.as_bytes())?))
    }
}

/// The answer to `gen N`: the generated program is looked at as any other.
pub fn decide_gen(alloc: Global, count: u32) -> Result<Job, ShelfError>
    ensures answer { IfOk result (λ job. IsOver (spec.generated count) spec.root_name (IsSummed count) (answer_of job)) }
    ensures playable { IfOk result IsPlayable }
    ensures failed { result ≢ Err ShelfError.Failed }
{
    let mut shelf = Generated {
        text: component_text(alloc, count)?,
    };
    decide_program(alloc, ROOT, Task::Sum { count }, &mut shelf)
}

#[tactic(auto, unfolding(crate::specs::Generated::component_text))]
fn component_text(alloc: Global, count: u32) -> Result<String, NoMemory>
    ensures { IfOk result (λ text. string_bytes text ≡ spec.component_text count) }
{
    Ok(format!(in alloc; "{HEAD}{count}{MIDDLE}{count}{TAIL}")?)
}

/// As many clicks as a number says.
pub fn clicks(alloc: Global, count: u32) -> Result<Vec<Event>, NoMemory>
    ensures { IfOk result (λ events. events.items ≡ spec.clicks count) }
{
    let mut events = Vec::new(alloc);
    for _ in 0..count {
        events.push(click(alloc)?)?;
    }
    Ok(events)
}

fn click(alloc: Global) -> Result<Event, NoMemory>
    ensures { IfOk result (λ event. event ≡ spec.click) }
{
    Ok(Event {
        name: Text::new(alloc, "click")?,
        target: Target::Id(Text::new(alloc, "s")?),
        value: None,
        checked: None,
        key: None,
    })
}
