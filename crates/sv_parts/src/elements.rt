// Elements, but for their content.
ghost use Rattle.std.specs.Prelude.{◌≡◌, option_copied};
ghost use Rattle.sv_shapes.specs.Shapes.{opened};
ghost use Rattle.sv_parts.specs.Elements as spec;
ghost use Rattle.sv_parts.specs.Sides.{sides};
ghost use Rattle.sv_parts.specs.State.{Meets};

use crate::attributes::{show_attrs, typed_after};
use crate::here::Here;
use crate::refusal::PatchError;
use crate::state::{State, number};
use sv_code::FragAttr;
use sv_shapes::{AttrState, AttrStates, Shape, element_of, states_of, typed_of};
use sv_tokens::Typed;

/// The mark of an element, the state that a user left in it, and what its attributes came to.
#[derive(Drop)]
pub struct Opening {
    pub mark: u64,
    pub typed: Option<Typed>,
    pub states: AttrStates,
}

// An element at a new place.
fn open_anew(here: &Here<'_>, attrs: &[FragAttr], state: &mut State) -> Result<Opening, PatchError>
    ensures { Meets result state.new (spec.opening_anew here.now.program.now attrs.now (sides here.now) state.old) }
{
    match number(state) {
        Ok(mark) => match show_attrs(here, attrs, &[], state) {
            Ok(states) => Ok(Opening {
                mark,
                typed: None,
                states,
            }),
            Err(error) => Err(error),
        },
        Err(error) => Err(error),
    }
}

// What was shown of an element that stays: its mark, the state that a user left in it, and what its attributes came to.
#[derive(Clone, Copy)]
struct OldElement<'a> {
    mark: u64,
    typed: Option<&'a Typed>,
    states: &'a [AttrState],
}

// An element that stays.
fn open_kept(
    here: &Here<'_>,
    attrs: &[FragAttr],
    old: &OldElement<'_>,
    state: &mut State,
) -> Result<Opening, PatchError>
    ensures { Meets result state.new (spec.opening_kept here.now.program.now attrs.now old.now.mark (option_copied old.now.typed) old.now.states.now (sides here.now) state.old) }
{
    let typed = typed_after(here, attrs, old.states, old.typed)?;
    match show_attrs(here, attrs, old.states, state) {
        Ok(states) => Ok(Opening {
            mark: old.mark,
            typed,
            states,
        }),
        Err(error) => Err(error),
    }
}

/// An element without its content, from what was shown of it before; what its attributes refuse is refused.
pub fn open(
    here: &Here<'_>,
    attrs: &[FragAttr],
    old: Option<&Shape>,
    state: &mut State,
) -> Result<Opening, PatchError>
    ensures { Meets result state.new (spec.opening_step here.now.program.now attrs.now (sides here.now) (opened (option_copied old.entry)) state.old) }
{
    match element_of(old) {
        Some(mark) => {
            let before = OldElement {
                mark,
                typed: typed_of(old),
                states: states_of(old),
            };
            open_kept(here, attrs, &before, state)
        }
        None => open_anew(here, attrs, state),
    }
}
