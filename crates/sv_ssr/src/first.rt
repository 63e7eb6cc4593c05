// The first page.
ghost use Rattle.std.specs.Prelude.{◌≡◌, ◌≤◌, Err, IfOk, OnOk, OnErr};
ghost use Rattle.sv_io.specs.Faults.{Rose};
ghost use Rattle.sv_io.specs.Sink.{with_bytes, AppendsFront};
ghost use Rattle.sv_ssr.specs.First as spec;
ghost use Rattle.sv_ssr.specs.Renders.{Renders};
ghost use Rattle.sv_within.specs.Runnable.{IsRunnable};

use std::alloc::Global;
use sv_code::Program;
use sv_document::print;
use sv_flush::{Machine, Page};
use sv_fresh::redraw;
use sv_io::{Sink, SinkError, write_all};
use sv_parts::PatchError;
use sv_play::write_refused;

/// Prints the first page of a program and a line feed, as a server does: module files run, and the root is made with all below it; scripts, reactive
/// statements and `beforeUpdate` callbacks run, `onMount` and `afterUpdate` callbacks don't. Where that meets a fault, a key that stands twice or the
/// end of the budget, the line of the refusal is printed alone. Answers whether it was refused. What was written is the whole text, or a prefix of
/// it where a write failed or memory runs out. Where nobody waits for an update then, the page is the fresh page of the present states.
#[tactic(auto, using(sv_play::proofs::Ready::runnable_lines, crate::proofs::Fresh::first_is_fresh))]
pub fn render<K: Sink>(alloc: Global, program: &Program, out: &mut K) -> Result<bool, SinkError>
    requires { IsRunnable program.now }
    ensures status { IfOk result (λ refused. refused ≡ (spec.first_page program.now).refused) }
    ensures all { OnOk result (K.written out.new ≡ with_bytes (K.written out.old) (spec.first_page program.now).text) }
    ensures front { OnErr result (AppendsFront (K.written out.old) (K.written out.new) (spec.first_page program.now).text) }
    ensures fresh { spec.IsFreshWhereIdle program.now }
    ensures later { K.faults out.old ≤ K.faults out.new }
    ensures failed { result ≡ Err SinkError.Failed → Rose (K.faults out.old) (K.faults out.new) }
{
    match first_text(alloc, program) {
        Ok(text) => {
            write_all(out, text.as_slice())?;
            Ok(false)
        }
        Err(PatchError::Refused(refusal)) => {
            write_refused(alloc, program, &refusal, out)?;
            Ok(true)
        }
        Err(PatchError::NoMemory) => Err(SinkError::NoMemory),
    }
}

// The text of the first page, with a line feed at its end, or why there is none.
#[tactic(auto, unfolding(crate::specs::First::first_page))]
fn first_text(alloc: Global, program: &Program) -> Result<Vec<u8>, PatchError>
    ensures { Renders program.now result (spec.first_page program.now) }
{
    let machine = Machine { alloc, program };
    let mut page = Page::new(alloc)?;
    page.begin_turn();
    machine.mount(&mut page)?;
    let nodes = redraw(alloc, program, &page.world, &page.showing)?;
    let mut text = print(alloc, nodes.as_slice(), None)?;
    text.push(b'\n')?;
    Ok(text)
}
