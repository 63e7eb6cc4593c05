// The patch of an instance.
ghost use Rattle.std.specs.Prelude.{◌≡◌, option_copied, OnErr};
ghost use Rattle.sv_plan.specs.Patch.{planned, patched, Patches};
ghost use Rattle.sv_parts.specs.State.{Meets};

use crate::walk::plan_list;
use std::alloc::Global;
use sv_code::{Frag, Program};
use sv_list::Items;
use sv_parts::{Counters, Effect, Here, Kept, PatchError, State, Tally};
use sv_shapes::{Shapes, Showing, Shown};
use sv_value::Inst;
use sv_view::View;

/// An instance that is patched: its program; for each level of its view, its own first, then its owner's and so on, the number of the tag with
/// which that instance stands in its owner's markup, which the root has none of; its number; and the markup of its component.
#[derive(Clone, Copy)]
pub struct Patching<'a> {
    pub alloc: Global,
    pub program: &'a Program,
    pub tags: &'a [Option<u32>],
    pub inst: Inst,
    pub markup: &'a [Frag],
}

/// What a patch gives: what happens to child components, in order, and the places of component tags that stay.
#[derive(Drop)]
pub struct Patched {
    pub effects: Items<Effect>,
    pub kept: Items<Kept>,
}

// What is planned for an instance, from what was shown of it before.
#[tactic(auto, unfolding(crate::specs::Patch::planned))]
fn plan_instance(
    patching: &Patching<'_>,
    shown: Option<&Shown>,
    view: &View,
    state: &mut State,
) -> Result<Shapes, PatchError>
    ensures { Meets result state.new (planned patching.now.program.now patching.now.tags.now patching.now.markup.now (option_copied shown.entry) view.now state.old) }
{
    match shown {
        Some(shown) => {
            let here = Here {
                alloc: patching.alloc,
                program: patching.program,
                tags: patching.tags,
                old: &shown.view,
                new: view,
            };
            plan_list(&here, patching.markup, shown.parts.as_slice(), state)
        }
        None => {
            let here = Here {
                alloc: patching.alloc,
                program: patching.program,
                tags: patching.tags,
                old: view,
                new: view,
            };
            plan_list(&here, patching.markup, &[], state)
        }
    }
}

/// Patches an instance to its present view, from what was shown of it before, and records the view and what is shown on it. What the page
/// shows of it is not made here.
///
/// A refusal comes exactly where the plan meets one, and then nothing changed; the same where memory runs out.
#[tactic(auto, unfolding(crate::specs::Patch::patched))]
pub fn patch(
    patching: &Patching<'_>,
    showing: &mut Showing,
    view: View,
    counters: &mut Counters,
    tally: &mut Tally,
) -> Result<Patched, PatchError>
    ensures plan { Patches result showing.new counters.new tally.new (patched patching.now.program.now patching.now.tags.now patching.now.inst.number patching.now.markup.now view showing.old counters.old tally.old) }
    ensures kept { OnErr result (showing.new ≡ showing.old) }
    ensures counters_kept { OnErr result (counters.new ≡ counters.old) }
    ensures tally_kept { OnErr result (tally.new ≡ tally.old) }
{
    let mut state = State {
        counters: *counters,
        tally: Tally { count: tally.count },
        effects: Items::new(patching.alloc),
        kept: Items::new(patching.alloc),
    };
    match plan_instance(patching, showing.get(patching.inst), &view, &mut state) {
        Ok(parts) => {
            showing.record(patching.inst, view, parts)?;
            *counters = state.counters;
            tally.count = state.tally.count;
            Ok(Patched {
                effects: state.effects,
                kept: state.kept,
            })
        }
        Err(error) => Err(error),
    }
}
