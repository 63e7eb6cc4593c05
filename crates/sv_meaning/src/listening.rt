// Whose listeners hear of events, and where pure evaluations run.
ghost use Rattle.std.specs.Prelude.{◌≡◌, IfOk, option_map};
ghost use Rattle.sv_states.specs.States.{live};
ghost use Rattle.sv_value.specs.View.{view_of};
ghost use Rattle.sv_meaning.specs.Hearers.{hearer_seen};
ghost use Rattle.sv_meaning.specs.Listeners.{hearer_of, listener_view, attrs_of};
ghost use Rattle.sv_meaning.specs.Parts.{part_world};
ghost use Rattle.sv_meaning.specs.Sources.{source_of};

use crate::limits::PART_STEP_LIMIT;
use std::alloc::Global;
use sv_base::{NoMemory, Span};
use sv_code::{FragAttr, Program};
use sv_value::{Inst, Value};
use sv_view::{Locals, View};
use sv_world::{STEP_LIMIT, World};

/// The tag whose listeners hear of the events of an instance: its number, the instance in whose markup it stands, and its row locals and slot
/// props.
#[derive(Drop)]
pub struct Hearer {
    pub tag: u32,
    pub owner: Inst,
    pub locals: Locals,
}

/// The tag of an instance, or `None` exactly where it isn't live, has none, or its listeners aren't attached.
pub fn hearer_of(world: &World, inst: Inst) -> Result<Option<Hearer>, NoMemory>
    ensures { IfOk result (λ hearer. option_map hearer_seen hearer ≡ hearer_of (live world.now.states inst.number)) }
{
    let Some(instance) = world.states.get(inst) else {
        return Ok(None);
    };
    let setup = &instance.setup;
    let Some(standing) = instance.place.standing() else {
        return Ok(None);
    };
    if !setup.attached {
        return Ok(None);
    }
    Ok(Some(Hearer {
        tag: standing.tag,
        owner: standing.owner,
        locals: setup.locals.share()?,
    }))
}

/// What the listeners of a tag are evaluated on: the present cells of the component in whose markup it stands, with the locals of the tag; `None`
/// exactly where that component's instance is gone.
pub fn listener_view(
    alloc: Global,
    world: &World,
    hearer: &Hearer,
) -> Result<Option<View>, NoMemory>
    ensures { IfOk result (λ view. view ≡ listener_view world.now hearer.now.owner.number hearer.now.locals) }
{
    let Some(view) = world.present(alloc, hearer.owner)? else {
        return Ok(None);
    };
    let view = view.with_locals(hearer.locals.share()?)?;
    Ok(Some(view))
}

/// The attributes of a component's tag by its number, none where there is no such tag.
pub fn attrs_of(program: &Program, tag: u32) -> &[FragAttr]
    ensures { result.now ≡ attrs_of program.now tag }
{
    match program.tags.as_slice().get(tag as usize) {
        Some(tag) => tag.attrs.as_slice(),
        None => &[],
    }
}

/// Where the source of a function is written, or a place where there is none.
pub fn source_of(program: &Program, function: &Value, span: Span) -> Span
    ensures { result ≡ source_of program.now (view_of function.now) span }
{
    let Value::Func(function) = function else {
        return span;
    };
    match program.functions.as_slice().get(function.code() as usize) {
        Some(function) => function.span,
        None => span,
    }
}

/// The world of a pure evaluation: nothing, and the steps that it may take.
pub fn part_world(alloc: Global) -> Result<World, NoMemory>
    ensures { IfOk result (λ world. world ≡ part_world) }
{
    let mut world = World::new(alloc)?;
    let _limited = world.turn.spend((STEP_LIMIT - PART_STEP_LIMIT) as usize);
    Ok(world)
}
