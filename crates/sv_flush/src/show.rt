// What is shown of an instance.
ghost use Rattle.std.specs.Prelude.{◌≡◌, IfOk, OnOk};
ghost use Rattle.sv_flush.specs.Meets.{Meets};
ghost use Rattle.sv_flush.specs.Showing as spec;
ghost use Rattle.sv_states.specs.States.{live};

use crate::machine::Machine;
use crate::page::Page;
use sv_base::NoMemory;
use sv_list::Items;
use sv_meaning::{component_of, markup_of};
use sv_parts::{Effect, Kept, PatchError};
use sv_plan::{Patching, patch};
use sv_shapes::Showing;
use sv_value::Inst;
use sv_view::View;
use sv_world::World;

impl Machine<'_> {
    /// Patches an instance to the view of its present cells, and answers the effects, which are still to run. Where it isn't live, nothing
    /// happens.
    #[tactic(auto, unfolding(crate::specs::Showing::patched_now))]
    pub fn patch(&self, page: &mut Page, inst: Inst) -> Result<Items<Effect>, PatchError>
        ensures { Meets result page.new (spec.patched_now self.now.program.now inst.number page.old) }
    {
        let Some(view) = page.world.present(self.alloc, inst)? else {
            return Ok(Items::new(self.alloc));
        };
        let tags = self.tags_of(&page.world, &view)?;
        let patching = Patching {
            alloc: self.alloc,
            program: self.program,
            tags: &tags,
            inst,
            markup: markup_of(component_of(self.program, &page.world, inst)),
        };
        let patched = patch(
            &patching,
            &mut page.showing,
            view,
            &mut page.counters,
            &mut page.tally,
        )?;
        keep_tags(&page.showing, &mut page.world, patched.kept.as_slice())?;
        Ok(patched.effects)
    }

    // For each level of a view, its own first, the number of the tag with which that instance stands in its owner's markup.
    fn tags_of(&self, world: &World, view: &View) -> Result<Vec<Option<u32>>, NoMemory>
        ensures { IfOk result (λ tags. tags.items ≡ spec.tags_of world.now view.now) }
    {
        let mut tags = Vec::new(self.alloc);
        for inst in &view.insts()? {
            tags.push(own_tag(world, *inst))?;
        }
        Ok(tags)
    }
}

fn own_tag(world: &World, inst: Inst) -> Option<u32>
    ensures { result ≡ spec.own_tag (live world.now.states inst.number) }
{
    let standing = world.states.get(inst)?.place.standing()?;
    Some(standing.tag)
}

// The children at tags that stay have the present row locals and slot props of these.
fn keep_tags(showing: &Showing, world: &mut World, kept: &[Kept]) -> Result<(), NoMemory>
    ensures { OnOk result (world.new ≡ spec.tags_kept showing.now kept.now world.old) }
{
    for one in kept {
        keep_tag(showing, world, one)?;
    }
    Ok(())
}

fn keep_tag(showing: &Showing, world: &mut World, kept: &Kept) -> Result<(), NoMemory>
    ensures { OnOk result (world.new ≡ spec.tag_kept showing.now kept.now world.old) }
{
    match showing.child(kept.place) {
        Some(child) => {
            world.show_tag(child, kept.locals.share()?);
            Ok(())
        }
        None => Ok(()),
    }
}
