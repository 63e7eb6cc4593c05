// If blocks and key blocks.
ghost use Rattle.std.specs.Prelude.{◌≡◌, option_copied};
ghost use Rattle.sv_parts.specs.State.{Meets};
ghost use Rattle.sv_parts.specs.Sides.{sides};
ghost use Rattle.sv_plan.specs.Blocks as spec;

use sv_code::{FragArm, Part};
use sv_parts::{Here, PatchError, State, evaluate, number};
use sv_shapes::{Held, KeyState};
use sv_value::{differs, truthy};

/// What a key block shows from now on, and whether its content stays.
#[derive(Drop)]
pub struct Settled {
    pub state: KeyState,
    pub kept: bool,
}

fn has_any_moved(here: &Here<'_>, arms: &[FragArm]) -> bool
    ensures { result ≡ spec.any_moved (spec.tests arms.now) (sides here.now) }
{
    for arm in arms {
        if here.has_moved(&arm.test.reads) {
            return true;
        }
    }
    false
}

// The first branch whose condition is truthy, or the last one.
fn choose_arm(here: &Here<'_>, arms: &[FragArm], state: &mut State) -> Result<usize, PatchError>
    ensures { Meets result state.new (spec.choose here.now.program.now (spec.tests arms.now) 0 (sides here.now) state.old) }
{
    for index in 0..arms.len() {
        match evaluate(here, &arms[index].test, state) {
            Ok(value) => {
                if truthy(value.get()) {
                    return Ok(index);
                }
            }
            Err(error) => return Err(error),
        }
    }
    Ok(arms.len())
}

/// The branch that is shown, where one was or none: the conditions are evaluated up to the first one that holds where the block is new or
/// something that one of them reads moved. A fault of one is refused.
pub fn take_arm(
    here: &Here<'_>,
    arms: &[FragArm],
    old: Option<usize>,
    state: &mut State,
) -> Result<usize, PatchError>
    ensures { Meets result state.new (spec.chosen here.now.program.now (spec.tests arms.now) old (sides here.now) state.old) }
{
    match old {
        Some(arm) => {
            if has_any_moved(here, arms) {
                choose_arm(here, arms, state)
            } else {
                Ok(arm)
            }
        }
        None => choose_arm(here, arms, state),
    }
}

/// Whether the content of a branch stays.
pub fn is_arm(old: Option<usize>, arm: usize) -> bool
    ensures { result ≡ spec.is_arm old arm }
{
    match old {
        Some(old) => old == arm,
        None => false,
    }
}

// New content of a key block.
fn settle_anew(here: &Here<'_>, part: &Part, state: &mut State) -> Result<Settled, PatchError>
    ensures { Meets result state.new (spec.settled_anew here.now.program.now part.now (sides here.now) state.old) }
{
    match evaluate(here, part, state) {
        Ok(value) => match number(state) {
            Ok(number) => Ok(Settled {
                state: KeyState { value, number },
                kept: false,
            }),
            Err(error) => Err(error),
        },
        Err(error) => Err(error),
    }
}

// What a key block shows from now on with a value.
fn settle_with(old: &KeyState, value: Held, state: &mut State) -> Result<Settled, PatchError>
    ensures { Meets result state.new (spec.settled_with old.now value state.old) }
{
    if !differs(old.value.get(), value.get()) {
        return Ok(Settled {
            state: KeyState {
                value,
                number: old.number,
            },
            kept: true,
        });
    }
    match number(state) {
        Ok(number) => Ok(Settled {
            state: KeyState { value, number },
            kept: false,
        }),
        Err(error) => Err(error),
    }
}

// The value of a key block moved.
fn settle_moved(
    here: &Here<'_>,
    part: &Part,
    old: &KeyState,
    state: &mut State,
) -> Result<Settled, PatchError>
    ensures { Meets result state.new (spec.settled_moved here.now.program.now part.now old.now (sides here.now) state.old) }
{
    match evaluate(here, part, state) {
        Ok(value) => settle_with(old, value, state),
        Err(error) => Err(error),
    }
}

/// The value of a key block, where it had one or none, and whether its content stays; a fault of it is refused.
pub fn settle(
    here: &Here<'_>,
    part: &Part,
    old: Option<&KeyState>,
    state: &mut State,
) -> Result<Settled, PatchError>
    ensures { Meets result state.new (spec.settled here.now.program.now part.now (option_copied old.entry) (sides here.now) state.old) }
{
    match old {
        Some(old) => {
            if here.has_moved(&part.reads) {
                settle_moved(here, part, old, state)
            } else {
                Ok(Settled {
                    state: old.share()?,
                    kept: true,
                })
            }
        }
        None => settle_anew(here, part, state),
    }
}
