// Updates, and rounds until nobody waits.
ghost use Rattle.std.specs.Prelude.{◌≡◌, [], OnOk, map};
ghost use Rattle.sv_flush.specs.Creation.{mounted};
ghost use Rattle.sv_flush.specs.Flush as spec;
ghost use Rattle.sv_flush.specs.Lent.{HoldsPast};
ghost use Rattle.sv_flush.specs.Meets.{Meets};
ghost use Rattle.sv_flush.specs.Outcome.{each};
ghost use Rattle.sv_flush.specs.Records.{RecordsSeen, ShowsPresent};
ghost use Rattle.sv_flush.specs.Settled.{IsSettled};
ghost use Rattle.sv_flush.specs.Waits.{waiting_of};
ghost use Rattle.sv_frame.specs.Computed.{AreComputed};

use crate::create::Handed;
use crate::machine::{Machine, told, work};
use crate::page::Page;
use crate::site::root_site;
use crate::waiting::Waiting;
use sv_parts::{PatchError, Refusal};
use sv_scripts::run_modules;
use sv_states::DEPTH_LIMIT;
use sv_value::Inst;

impl Machine<'_> {
    /// Runs the module files and makes the root, with all below it. What was recorded stays what snapshots saw, the levels of views that are held
    /// stay no later, and derived stores are what their functions gave, with none pending.
    pub fn mount(&self, page: &mut Page) -> Result<(), PatchError>
        ensures run { Meets result page.new (mounted self.now.program.now page.old) }
        ensures records { OnOk result (RecordsSeen page.old → RecordsSeen page.new) }
        ensures past { OnOk result (HoldsPast page.old → HoldsPast page.new) }
        ensures computed { OnOk result (AreComputed self.now.program.now page.old.world.states → AreComputed self.now.program.now page.new.world.states) }
    {
        page.world.states.facts();
        self.make_root(page)
    }

    #[tactic(auto, unfolding(crate::specs::Creation::mounted))]
    fn make_root(&self, page: &mut Page) -> Result<(), PatchError>
        ensures { Meets result page.new (mounted self.now.program.now page.old) }
    {
        told(run_modules(self.alloc, self.program, &mut page.world))?;
        let Some(root) = self.make(page, root_site())? else {
            return Ok(());
        };
        let handed = Handed {
            props: &[],
            view: None,
        };
        self.start(page, DEPTH_LIMIT, root, &handed)
    }

    /// Updates an instance, and with it all that its new state moves below it.
    #[tactic(auto, unfolding(crate::specs::Flush::updated))]
    pub fn update(&self, page: &mut Page, inst: Inst) -> Result<(), PatchError>
        ensures { Meets result page.new (spec.updated self.now.program.now inst.number page.old) }
    {
        work(page)?;
        self.ready(page, inst, false)?;
        self.show(page, DEPTH_LIMIT, inst)?;
        self.queue_after(page, inst)?;
        Ok(())
    }

    // Updates those who wait in order, those who join them meanwhile among them.
    fn update_all(&self, page: &mut Page) -> Result<(), PatchError>
        ensures { Meets result page.new (spec.until_settled (spec.updated self.now.program.now) page.old) }
    {
        let mut left = page.counters.work;
        while let Some(inst) = page.world.states.first_queued() {
            if left == 0 {
                return Err(PatchError::Refused(Refusal::Budget));
            }
            left -= 1;
            self.update(page, inst)?;
        }
        Ok(())
    }

    // The entries of the render queue in order.
    fn render(&self, page: &mut Page) -> Result<(), PatchError>
        ensures { Meets result page.new (spec.rendered self.now.program.now page.old) }
    {
        let waiting = page.rounds.take_waiting();
        self.render_each(page, &waiting)
    }

    fn render_each(&self, page: &mut Page, waiting: &[Waiting]) -> Result<(), PatchError>
        ensures { Meets result page.new (each (spec.rendered_one self.now.program.now) (map waiting_of waiting.now) page.old) }
    {
        for one in waiting {
            self.render_one(page, *one)?;
        }
        Ok(())
    }

    fn render_one(&self, page: &mut Page, waiting: Waiting) -> Result<(), PatchError>
        ensures { Meets result page.new (spec.rendered_one self.now.program.now (waiting_of waiting) page.old) }
    {
        match waiting {
            Waiting::Mounting(inst) => told(self.mount_all(&mut page.world, inst)),
            Waiting::AfterUpdate(inst, at) => self.call_after(page, inst, at),
        }
    }

    // One round: the updates, the binding callbacks, and the render queue.
    #[tactic(auto, unfolding(crate::specs::Flush::round))]
    fn round(&self, page: &mut Page) -> Result<(), PatchError>
        ensures { Meets result page.new (spec.round self.now.program.now page.old) }
    {
        self.update_all(page)?;
        self.bind_all(page)?;
        self.render(page)
    }

    /// Runs rounds until nobody waits, one at least. A refusal comes exactly where one of them meets it. Where it ends, nothing waits any more, and
    /// each live instance that is shown is shown on its present cells. The levels of views that are held stay no later than what snapshots saw, and
    /// derived stores are what their functions gave, with none pending.
    pub fn flush(&self, page: &mut Page) -> Result<(), PatchError>
        ensures run { Meets result page.new (spec.flushed self.now.program.now page.old) }
        ensures settled { OnOk result (IsSettled page.new) }
        ensures records { OnOk result (RecordsSeen page.old → RecordsSeen page.new) }
        ensures present { OnOk result (RecordsSeen page.old → ShowsPresent page.new) }
        ensures past { OnOk result (HoldsPast page.old → HoldsPast page.new) }
        ensures computed { OnOk result (AreComputed self.now.program.now page.old.world.states → AreComputed self.now.program.now page.new.world.states) }
    {
        page.world.states.facts();
        self.run_rounds(page)
    }

    #[tactic(auto, unfolding(crate::specs::Flush::flushed))]
    fn run_rounds(&self, page: &mut Page) -> Result<(), PatchError>
        ensures { Meets result page.new (spec.flushed self.now.program.now page.old) }
    {
        self.round(page)?;
        self.settle(page)?;
        page.rounds.end_flush();
        Ok(())
    }

    // More rounds, while somebody waits.
    fn settle(&self, page: &mut Page) -> Result<(), PatchError>
        ensures { Meets result page.new (spec.until_settled (λ _. spec.round self.now.program.now) page.old) }
    {
        let mut left = page.counters.work;
        while page.world.states.first_queued().is_some() {
            if left == 0 {
                return Err(PatchError::Refused(Refusal::Budget));
            }
            left -= 1;
            self.round(page)?;
        }
        Ok(())
    }
}
