// Instances that go.
ghost use Rattle.std.specs.Prelude.{◌≡◌};
ghost use Rattle.sv_flush.specs.Callbacks.{after};
ghost use Rattle.sv_flush.specs.Destruction as spec;
ghost use Rattle.sv_flush.specs.Meets.{Meets};
ghost use Rattle.sv_flush.specs.Outcome.{each};
ghost use Rattle.sv_flush.specs.Rounds.{waiting_callbacks};

use crate::machine::{Machine, told};
use crate::page::Page;
use sv_instance::When;
use sv_parts::PatchError;
use sv_value::Inst;

impl Machine<'_> {
    /// Takes away the child at a place, with all below it; where there is none, nothing happens.
    #[cycle(destroy)]
    pub fn destroy_at(&self, page: &mut Page, room: u32, place: u64) -> Result<(), PatchError>
        ensures { Meets result page.new (spec.taken (spec.destroyed room self.now.program.now) place page.old) }
    {
        match page.showing.take_child(place) {
            Some(child) => self.destroy(page, room, child),
            None => Ok(()),
        }
    }

    // An instance goes, where so many components may stand in one another below it.
    #[cycle(destroy)]
    fn destroy(&self, page: &mut Page, room: u32, inst: Inst) -> Result<(), PatchError>
        ensures { Meets result page.new (spec.destroyed room self.now.program.now inst.number page.old) }
    {
        self.call_waiting(page, inst)?;
        told(self.call_all(&mut page.world, inst, When::Destroy))?;
        told(self.call_all(&mut page.world, inst, When::Returned))?;
        self.destroy_children(page, room, inst)?;
        page.world.remove_instance(inst);
        page.rounds.forget(inst);
        page.showing.remove(inst);
        Ok(())
    }

    #[cycle(destroy)]
    #[tactic(auto, unfolding(crate::specs::Destruction::children_destroyed))]
    fn destroy_children(&self, page: &mut Page, room: u32, inst: Inst) -> Result<(), PatchError>
        ensures { Meets result page.new (spec.children_destroyed room self.now.program.now inst.number page.old) }
    {
        let Some(below) = room.checked_sub(1) else {
            return Ok(());
        };
        let places = page.showing.places(inst)?;
        for place in places.as_slice() {
            self.destroy_at(page, below, *place)?;
        }
        Ok(())
    }

    // The `afterUpdate` callbacks of an instance that wait run now.
    fn call_waiting(&self, page: &mut Page, inst: Inst) -> Result<(), PatchError>
        ensures { Meets result page.new (each (after self.now.program.now inst.number) (waiting_callbacks page.old.rounds inst.number) page.old) }
    {
        let waiting = page.rounds.queued_after(inst)?;
        for at in &waiting {
            self.call_after(page, inst, *at)?;
        }
        Ok(())
    }
}
