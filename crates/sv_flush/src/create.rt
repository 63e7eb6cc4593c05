// Instances that are made, and the effects of patches on child components.
ghost use Rattle.std.specs.Prelude.{◌≡◌, option_copied, map, slice_get, IfOk, OnOk};
ghost use Rattle.sv_flush.specs.Creation as spec;
ghost use Rattle.sv_flush.specs.Meets.{Meets};
ghost use Rattle.sv_flush.specs.Destruction.{child_task};
ghost use Rattle.sv_flush.specs.Sites.{site_seen};
ghost use Rattle.sv_shapes.specs.Showing.{child_at};
ghost use Rattle.sv_flush.specs.Showing.{shown};
ghost use Rattle.sv_scripts.specs.Props.{given_as};

use crate::machine::{Machine, told, too_deep};
use crate::page::Page;
use crate::set::set;
use crate::site::Site;
use sv_base::NoMemory;
use sv_code::Tag;
use sv_instance::{Standing, When};
use sv_parts::{Effect, Given, PatchError};
use sv_scripts::{run_reactive, run_top};
use sv_states::DEPTH_LIMIT;
use sv_value::{Inst, Value};
use sv_view::View;

/// What a new instance is handed: its props, and its owner's view.
#[derive(Clone, Copy)]
pub struct Handed<'a> {
    pub props: &'a [Given],
    pub view: Option<&'a View>,
}

/// A child that is to be made: its parent, its place, the number of its tag, its props, and the view on which its tag stands.
#[derive(Clone, Copy)]
pub struct Birth<'a> {
    pub parent: Inst,
    pub place: u64,
    pub tag: u32,
    pub props: &'a [Given],
    pub view: &'a View,
}

// A new child, and its tag.
#[derive(Clone, Copy)]
struct Child<'a> {
    inst: Inst,
    tag: &'a Tag,
}

impl Machine<'_> {
    /// Runs the reactive statements of an instance, all or those that are due, and its `beforeUpdate` callbacks, and takes its snapshot.
    pub fn ready(&self, page: &mut Page, inst: Inst, all: bool) -> Result<(), PatchError>
        ensures { Meets result page.new (spec.readied self.now.program.now inst.number all page.old) }
    {
        let world = &mut page.world;
        told(run_reactive(self.alloc, self.program, world, inst, all))?;
        told(self.call_all(&mut page.world, inst, When::Before))?;
        page.world.take_dirty(inst);
        Ok(())
    }

    /// Runs the script of a new instance, readies and shows it, and puts its callbacks into the render queue.
    #[cycle(create)]
    pub fn start(
        &self,
        page: &mut Page,
        room: u32,
        inst: Inst,
        handed: &Handed<'_>,
    ) -> Result<(), PatchError>
        ensures { Meets result page.new (spec.started self.now.program.now (spec.effects room self.now.program.now inst.number) inst.number handed.now.props.now (option_copied handed.now.view) page.old) }
    {
        self.open(page, inst, handed)?;
        self.ready(page, inst, true)?;
        self.show(page, room, inst)?;
        self.queue_mount(page, inst)?;
        self.queue_after(page, inst)?;
        Ok(())
    }

    /// Patches an instance to the view of its present cells, and runs the effects.
    #[cycle(create)]
    pub fn show(&self, page: &mut Page, room: u32, inst: Inst) -> Result<(), PatchError>
        ensures { Meets result page.new (shown self.now.program.now (spec.effects room self.now.program.now inst.number) inst.number page.old) }
    {
        let effects = self.patch(page, inst)?;
        self.run_effects(page, room, inst, effects.as_slice())
    }

    #[cycle(create)]
    fn run_effects(
        &self,
        page: &mut Page,
        room: u32,
        parent: Inst,
        effects: &[Effect],
    ) -> Result<(), PatchError>
        ensures { Meets result page.new (spec.effects room self.now.program.now parent.number effects.now page.old) }
    {
        for effect in effects {
            self.run_effect(page, room, parent, effect)?;
        }
        Ok(())
    }

    #[cycle(create)]
    fn run_effect(
        &self,
        page: &mut Page,
        room: u32,
        parent: Inst,
        effect: &Effect,
    ) -> Result<(), PatchError>
        ensures { Meets result page.new (spec.effect_by self.now.program.now (spec.created_in room self.now.program.now) parent.number effect.now page.old) }
    {
        match effect {
            Effect::Create {
                place,
                tag,
                props,
                view,
            } => {
                let birth = Birth {
                    parent,
                    place: *place,
                    tag: *tag,
                    props: props.as_slice(),
                    view,
                };
                self.create_at(page, room, &birth)
            }
            Effect::Set { place, props, view } => {
                self.set_at(page, *place, props.as_slice(), view.as_ref())
            }
            Effect::Destroy { place } => self.destroy_at(page, DEPTH_LIMIT, *place),
        }
    }

    #[cycle(create)]
    fn create_at(&self, page: &mut Page, room: u32, birth: &Birth<'_>) -> Result<(), PatchError>
        ensures { Meets result page.new (spec.tag_task (slice_get self.now.program.now.tags birth.now.tag) (spec.created_in room self.now.program.now birth.now.parent.number birth.now.place birth.now.tag birth.now.props.now birth.now.view.now) page.old) }
    {
        match self.program.tags.as_slice().get(birth.tag as usize) {
            Some(tag) => self.create(page, room, birth, tag),
            None => Ok(()),
        }
    }

    #[cycle(create)]
    #[tactic(auto, unfolding(crate::specs::Creation::created_in))]
    fn create(
        &self,
        page: &mut Page,
        room: u32,
        birth: &Birth<'_>,
        tag: &Tag,
    ) -> Result<(), PatchError>
        ensures { Meets result page.new (spec.created_in room self.now.program.now birth.now.parent.number birth.now.place birth.now.tag birth.now.props.now birth.now.view.now tag.now page.old) }
    {
        let Some(below) = room.checked_sub(1) else {
            return Err(too_deep(tag.span));
        };
        let Some(inst) = self.make(page, site_of(birth, tag))? else {
            return Ok(());
        };
        self.grow(page, below, birth, &Child { inst, tag })
    }

    // A new child is placed and started; then it is heard, and its bindings wait.
    #[cycle(create)]
    fn grow(
        &self,
        page: &mut Page,
        room: u32,
        birth: &Birth<'_>,
        child: &Child<'_>,
    ) -> Result<(), PatchError>
        ensures { Meets result page.new (spec.grown self.now.program.now (spec.effects room self.now.program.now) birth.now.place birth.now.props.now birth.now.view.now child.now.tag.now child.now.inst.number page.old) }
    {
        place(page, birth, child.inst)?;
        let handed = Handed {
            props: birth.props,
            view: Some(birth.view),
        };
        self.start(page, room, child.inst, &handed)?;
        page.world.attach(child.inst);
        self.bind(page, child.tag, child.inst, birth.view.inst())?;
        Ok(())
    }

    // The script of a new instance, and its owner's view.
    fn open(&self, page: &mut Page, inst: Inst, handed: &Handed<'_>) -> Result<(), PatchError>
        ensures { Meets result page.new (spec.opened self.now.program.now inst.number handed.now.props.now (option_copied handed.now.view) page.old) }
    {
        let props = self.passed(handed.props)?;
        let world = &mut page.world;
        told(run_top(self.alloc, self.program, world, inst, &props))?;
        self.lend(&mut page.world, inst, handed.view)?;
        Ok(())
    }

    fn passed(&self, props: &[Given]) -> Result<Vec<(u8, Value)>, NoMemory>
        ensures { IfOk result (λ all. map given_as all.items ≡ spec.passed props.now) }
    {
        let mut all = Vec::new(self.alloc);
        for prop in props {
            all.push((prop.cell, prop.value.get().share()?))?;
        }
        Ok(all)
    }

    // The child at a place gets what moved.
    fn set_at(
        &self,
        page: &mut Page,
        place: u64,
        props: &[Given],
        view: Option<&View>,
    ) -> Result<(), PatchError>
        ensures { Meets result page.new (child_task (spec.child_set self.now.program.now props.now (option_copied view.entry)) (child_at page.old.showing place) page.old) }
    {
        let Some(child) = page.showing.child(place) else {
            return Ok(());
        };
        told(set(&mut page.world, child, props))?;
        self.lend(&mut page.world, child, view)?;
        Ok(())
    }
}

// A child stands at its place, with the row locals and slot props of its tag.
fn place(page: &mut Page, birth: &Birth<'_>, child: Inst) -> Result<(), NoMemory>
    ensures { OnOk result (page.new ≡ spec.placed birth.now.place birth.now.view.now child.number page.old) }
{
    page.world.show_tag(child, birth.view.locals().share()?);
    page.showing.put_child(birth.place, child)?;
    Ok(())
}

fn site_of(birth: &Birth<'_>, tag: &Tag) -> Site
    ensures { site_seen result ≡ spec.site_of birth.now.parent.number birth.now.tag birth.now.view.now tag.now }
{
    Site {
        file: tag.file as u32,
        parent: Some(birth.parent),
        standing: Some(Standing {
            tag: birth.tag,
            owner: birth.view.inst(),
        }),
        span: tag.span,
    }
}
