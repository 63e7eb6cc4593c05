// What is handed from one step of a plan to the next.
ghost use Rattle.std.specs.Prelude.{◌≡◌};
ghost use Rattle.sv_parts.specs.State.{Meets, numbered, emitted, remembered, spent, destroyed};

use crate::counters::Counters;
use crate::refusal::{PatchError, Refusal};
use crate::tally::Tally;
use std::alloc::Global;
use sv_base::Span;
use sv_list::Items;
use sv_shapes::{Held, Shape, places_of};
use sv_view::{Locals, View};

/// A value for a cell of a child, whether the owner has bound a variable to it, and the place of the attribute that passes it.
#[derive(Drop)]
pub struct Given {
    pub cell: u8,
    pub value: Held,
    pub bound: bool,
    pub span: Span,
}

/// What a patch does to child components. A place is the number of the place of a component's tag.
#[derive(Drop)]
pub enum Effect {
    /// A child is made at a new place: the number of its tag, its props in the order of their declaration, and the view on which its tag
    /// stands, whole.
    Create {
        place: u64,
        tag: u32,
        props: Items<Given>,
        view: View,
    },
    /// The props that moved, in the order of their declaration, and the view on which the tag stands, where the child shows content of the tag
    /// and that looks at something that moved.
    Set {
        place: u64,
        props: Items<Given>,
        view: Option<View>,
    },
    /// The child at a place goes.
    Destroy {
        place: u64,
    },
}

/// A place of a component's tag that stays, and the row locals and slot props that it has now.
#[derive(Drop)]
pub struct Kept {
    pub place: u64,
    pub locals: Locals,
}

/// What a plan has taken and given so far: the work that is left and the next number, how many parts were evaluated, the effects in order, and
/// the places that stay.
#[derive(Drop)]
pub struct State {
    pub counters: Counters,
    pub tally: Tally,
    pub effects: Items<Effect>,
    pub kept: Items<Kept>,
}

/// The next number; it is never refused.
pub fn number(state: &mut State) -> Result<u64, PatchError>
    ensures { Meets result state.new (numbered state.old) }
{
    let number = state.counters.take_number()?;
    Ok(number)
}

/// A unit of work for each row; `Budget` where one of them would be one too many.
pub fn spend(state: &mut State, rows: usize) -> Result<(), PatchError>
    ensures { Meets result state.new (spent rows state.old) }
{
    if state.counters.spend_work(rows) {
        Ok(())
    } else {
        Err(PatchError::Refused(Refusal::Budget))
    }
}

/// One more effect.
pub fn emit(state: &mut State, effect: Effect) -> Result<(), PatchError>
    ensures { Meets result state.new (emitted effect state.old) }
{
    state.effects.push(effect)?;
    Ok(())
}

/// One more place that stays.
pub fn remember(state: &mut State, kept: Kept) -> Result<(), PatchError>
    ensures { Meets result state.new (remembered kept state.old) }
{
    state.kept.push(kept)?;
    Ok(())
}

/// The children at the places of component tags in what was shown go, in document order.
pub fn destroy(alloc: Global, parts: &[Shape], state: &mut State) -> Result<(), PatchError>
    ensures { Meets result state.new (destroyed parts.now state.old) }
{
    let places = places_of(alloc, parts)?;
    for place in places.as_slice() {
        state.effects.push(Effect::Destroy { place: *place })?;
    }
    Ok(())
}
