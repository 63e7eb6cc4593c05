// What a page is drawn from.
ghost use Rattle.std.specs.Prelude.{◌≡◌, option_copied};
ghost use Rattle.sv_fresh.specs.Scene as spec;

use crate::source::Source;
use std::alloc::Global;
use sv_code::{Frag, Program};
use sv_meaning::{component_of, markup_of};
use sv_shapes::{Shape, Showing};
use sv_value::Inst;
use sv_view::View;
use sv_world::World;

/// From where what is shown is taken; the program; the present states; what is recorded as shown; the instance in whose shape is drawn; how deep components may still stand below;
/// and for each level of the view that is drawn on, its own first, the number of the tag with which that instance stands in its owner's markup.
/// What is made takes its memory from `alloc`.
#[derive(Clone, Copy)]
pub struct Scene<'a> {
    pub alloc: Global,
    pub source: Source,
    pub program: &'a Program,
    pub world: &'a World,
    pub showing: &'a Showing,
    pub inst: Inst,
    pub room: u32,
    pub tags: &'a [Option<u32>],
}

/// A scene, and the view that is drawn on.
#[derive(Clone, Copy)]
pub struct Here<'a> {
    pub scene: &'a Scene<'a>,
    pub view: &'a View,
}

/// The markup of the component of an instance; none where it isn't live.
#[tactic(auto, unfolding(crate::specs::Scene::markup_at))]
pub fn markup_at<'a>(scene: &Scene<'a>, inst: Inst) -> &'a [Frag]
    ensures { result.now ≡ spec.markup_at (spec.seen scene.now).page inst.number }
{
    markup_of(component_of(scene.program, scene.world, inst))
}

/// What is recorded as shown of an instance; nothing where nothing is.
#[tactic(auto, unfolding(crate::specs::Scene::parts_at))]
pub fn parts_at<'a>(scene: &Scene<'a>, inst: Inst) -> &'a [Shape]
    ensures { result.now ≡ spec.parts_at (spec.seen scene.now).page inst.number }
{
    match scene.showing.get(inst) {
        Some(shown) => shown.parts.as_slice(),
        None => &[],
    }
}
