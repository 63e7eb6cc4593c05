// What an event does to a page.
ghost use Rattle.std.specs.Prelude.{◌≡◌, IfOk, map, option_map};
ghost use Rattle.sv_input.specs.Lasts.{Lasts};
ghost use Rattle.sv_input.specs.Named.{named};
ghost use Rattle.sv_input.specs.Typed.{taken, laid, laid_down};
ghost use Rattle.sv_input.specs.Walk.{delivery, walked, dispatched};
ghost use Rattle.sv_meaning.specs.Gives.{EndsAs};

use crate::delivery::{Delivery, Desk};
use crate::typed::{lay_down, taken};
use crate::walk::walk;
use std::alloc::Global;
use sv_base::NoMemory;
use sv_document::{Element, Node, at_places};
use sv_events::Target;
use sv_meaning::EvalError;
use sv_shapes::Showing;
use sv_world::World;

// An element takes the event, and then the event goes its way.
fn deliver<'a>(
    desk: &'a Desk<'a>,
    world: &mut World,
    showing: &mut Showing,
    element: &'a Element,
    outer: &[&Element],
) -> Result<(), EvalError>
    ensures world { EndsAs (λ u. u) result world.new (walked (delivery desk.now.program.now desk.now.event.now element.now) (map (λ e. e.now) outer.now) world.old) }
    ensures showing { Lasts result (showing.new ≡ laid (taken element.now desk.now.event.now) element.now showing.old) }
{
    let typed = taken(desk.alloc, element, desk.event)?;
    lay_down(showing, element, typed.as_ref())?;
    let delivery = Delivery {
        desk,
        target: element,
        typed: typed.as_ref(),
    };
    walk(&delivery, world, outer)
}

// The element that an event names, and each one round it.
fn named<'a>(
    alloc: Global,
    target: &Target,
    nodes: &'a [Node],
) -> Result<Option<Vec<&'a Element>>, NoMemory>
    ensures { IfOk result (λ found. option_map (λ path. map (λ e. e.now) path.items) found ≡ named target.now nodes.now) }
{
    match target {
        Target::Id(id) => sv_document::target(alloc, nodes, id.as_str()),
        Target::Path(places) => at_places(alloc, nodes, places.as_slice()),
    }
}

/// What an event does to a page before the flush (DOM Standard, 'Dispatching events'; Svelte 4 docs, 'on:eventname' and 'bind:property' of
/// elements). The element of these nodes that it names is the target and takes what a user left in it. Then the directives that hear of
/// the event run, from the target to the outermost element, those of an element in the order of the text. `false` exactly where there is no
/// such element, and then nothing is done.
///
/// A fault is the first that a directive meets: what its expression, the function that it calls and the functions of derived stores meet, each at
/// its own place; `NotAFunction` at an expression whose value can't be called; `Large` at a directive for which the typed text, or the event's
/// object, is too large; `UseBeforeInit` at a binding whose variable has no value yet, `NoMember` at one that would set a derived store, and
/// `NotAStore` at one that would assign a `$` name that looks at no store, or give a variable with a `$` name what is neither a store nor nothing.
/// World and showing are then what was done before it.
pub fn dispatch(
    desk: &Desk<'_>,
    world: &mut World,
    showing: &mut Showing,
    nodes: &[Node],
) -> Result<bool, EvalError>
    ensures world { EndsAs (λ found. found) result world.new (dispatched desk.now.program.now desk.now.event.now (named desk.now.event.now.target nodes.now) world.old) }
    ensures showing { Lasts result (showing.new ≡ laid_down (named desk.now.event.now.target nodes.now) desk.now.event.now showing.old) }
{
    let Some(path) = named(desk.alloc, &desk.event.target, nodes)? else {
        return Ok(false);
    };
    let Some((element, outer)) = path.split_first() else {
        return Ok(false);
    };
    deliver(desk, world, showing, element, outer)?;
    Ok(true)
}
