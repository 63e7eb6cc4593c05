// What turns do to a page.
ghost use Rattle.std.specs.Prelude.{◌≡◌, OnOk};
ghost use Rattle.sv_flush.specs.Meets.{Meets};
ghost use Rattle.sv_flush.specs.Page.{blank};
ghost use Rattle.sv_page.specs.Current.{IsCurrent};
ghost use Rattle.sv_page.specs.Turns as spec;

use sv_document::Node;
use sv_events::Event;
use sv_flush::{Machine, Page};
use sv_input::{Desk, dispatch};
use sv_meaning::EvalError;
use sv_parts::{PatchError, Refusal};

/// The first turn: the page is mounted and flushed. A blank page is current afterwards.
pub fn first_turn(machine: &Machine<'_>, page: &mut Page) -> Result<bool, PatchError>
    ensures turn { Meets result page.new (spec.first_turn machine.now.program.now page.old) }
    ensures current { page.old ≡ blank → OnOk result (IsCurrent machine.now.program.now page.new) }
{
    mount_and_flush(machine, page)
}

#[tactic(auto, unfolding(crate::specs::Turns::first_turn))]
fn mount_and_flush(machine: &Machine<'_>, page: &mut Page) -> Result<bool, PatchError>
    ensures { Meets result page.new (spec.first_turn machine.now.program.now page.old) }
{
    page.begin_turn();
    machine.mount(page)?;
    machine.flush(page)?;
    Ok(true)
}

/// The turn of an event: what it does to the page that shows these nodes, and a flush where there was an element for it. A page that was
/// current is so afterwards.
pub fn next_turn(
    machine: &Machine<'_>,
    page: &mut Page,
    nodes: &[Node],
    event: &Event,
) -> Result<bool, PatchError>
    ensures turn { Meets result page.new (spec.next_turn machine.now.program.now event.now nodes.now page.old) }
    ensures current { IsCurrent machine.now.program.now page.old → OnOk result (IsCurrent machine.now.program.now page.new) }
{
    page.world.states.facts();
    deliver_and_flush(machine, page, nodes, event)
}

#[tactic(auto, unfolding(crate::specs::Turns::next_turn))]
fn deliver_and_flush(
    machine: &Machine<'_>,
    page: &mut Page,
    nodes: &[Node],
    event: &Event,
) -> Result<bool, PatchError>
    ensures { Meets result page.new (spec.next_turn machine.now.program.now event.now nodes.now page.old) }
{
    page.begin_turn();
    let target = deliver(machine, page, nodes, event)?;
    if target {
        machine.flush(page)?;
    }
    Ok(target)
}

// What an event does before the flush.
fn deliver(
    machine: &Machine<'_>,
    page: &mut Page,
    nodes: &[Node],
    event: &Event,
) -> Result<bool, PatchError>
    ensures { Meets result page.new (spec.delivered machine.now.program.now event.now nodes.now page.old) }
{
    let desk = Desk {
        alloc: machine.alloc,
        program: machine.program,
        event,
    };
    match dispatch(&desk, &mut page.world, &mut page.showing, nodes) {
        Ok(target) => Ok(target),
        Err(EvalError::Fault(fault)) => Err(PatchError::Refused(Refusal::Fault(fault))),
        Err(EvalError::NoMemory) => Err(PatchError::NoMemory),
    }
}
