// From where what is shown is taken.
ghost use Rattle.std.specs.Prelude.{◌≡◌, option_copied, IfOk};
ghost use Rattle.sv_plan.specs.Blocks.{tests};
ghost use Rattle.sv_shapes.specs.Shapes.{opened};
ghost use Rattle.sv_fresh.specs.Sources as spec;

use crate::blocks::{choose, items_in};
use crate::scene::{Here, Scene};
use crate::slots::{prop_with, props};
use crate::states::states;
use crate::values::{text_at, value_at};
use std::alloc::Global;
use sv_attributes::{Attrs, attributes};
use sv_base::{NoMemory, Text};
use sv_code::{FragArm, FragAttr, Part};
use sv_document::Attributes;
use sv_list::Items;
use sv_shapes::{
    Held, Row, Shape, SlotProp, SlotProps, arm_of, props_of, rows_of, shown_text, states_of,
};
use sv_value::Inst;
use sv_view::View;

/// Expressions of markup are evaluated on present states, or what patches recorded of them is read, and nothing is evaluated.
#[derive(Clone, Copy)]
pub enum Source {
    Evaluated,
    Recorded,
}

// The text that is recorded, if there is one.
fn share_text(text: Option<&Text>) -> Result<Option<Text>, NoMemory>
    ensures { IfOk result (λ same. same ≡ option_copied text.entry) }
{
    match text {
        Some(text) => Ok(Some(text.share()?)),
        None => Ok(None),
    }
}

/// The text of an expression, if it has one.
pub fn text_by(
    here: &Here<'_>,
    part: &Part,
    shape: Option<&Shape>,
) -> Result<Option<Text>, NoMemory>
    ensures { IfOk result (λ text. text ≡ spec.text_by here.now.scene.now.source here.now.scene.now.program.now part.now here.now.view.now (opened (option_copied shape.entry))) }
{
    match here.scene.source {
        Source::Evaluated => text_at(here, part),
        Source::Recorded => share_text(shown_text(shape)),
    }
}

/// The attributes that an element shows.
pub fn attributes_by(
    here: &Here<'_>,
    attrs: &[FragAttr],
    shape: Option<&Shape>,
) -> Result<Attributes, NoMemory>
    ensures { IfOk result (λ all. all ≡ spec.attributes_by here.now.scene.now.source here.now.scene.now.program.now attrs.now here.now.view.now (opened (option_copied shape.entry))) }
{
    let alloc = here.scene.alloc;
    let program = here.scene.program;
    match here.scene.source {
        Source::Evaluated => {
            let now = states(here, attrs)?;
            attributes(&Attrs {
                alloc,
                program,
                list: attrs,
                states: now.as_slice(),
            })
        }
        Source::Recorded => attributes(&Attrs {
            alloc,
            program,
            list: attrs,
            states: states_of(shape),
        }),
    }
}

/// The branch of an if block.
pub fn arm_by(here: &Here<'_>, arms: &[FragArm], shape: Option<&Shape>) -> Result<usize, NoMemory>
    ensures { IfOk result (λ arm. arm ≡ spec.arm_by here.now.scene.now.source here.now.scene.now.program.now (tests arms.now) here.now.view.now (opened (option_copied shape.entry))) }
{
    match here.scene.source {
        Source::Evaluated => choose(here, arms),
        Source::Recorded => Ok(arm_of(shape).unwrap_or(0)),
    }
}

// The items of the rows that are recorded.
fn row_items(alloc: Global, rows: &[Row]) -> Result<Items<Held>, NoMemory>
    ensures { IfOk result (λ items. items ≡ spec.row_items rows.now) }
{
    let mut items = Items::new(alloc);
    for row in rows {
        items.push(row.item.share()?)?;
    }
    Ok(items)
}

/// The items of an each block.
pub fn items_by(
    here: &Here<'_>,
    list: &Part,
    shape: Option<&Shape>,
) -> Result<Items<Held>, NoMemory>
    ensures { IfOk result (λ items. items ≡ spec.items_by here.now.scene.now.source here.now.scene.now.program.now list.now here.now.view.now (opened (option_copied shape.entry))) }
{
    let alloc = here.scene.alloc;
    match here.scene.source {
        Source::Evaluated => {
            let value = value_at(here, list)?;
            items_in(alloc, value.as_ref())
        }
        Source::Recorded => row_items(alloc, rows_of(shape)),
    }
}

// The props that are recorded.
fn plain_props(alloc: Global, olds: &[SlotProp]) -> Result<SlotProps, NoMemory>
    ensures { IfOk result (λ all. all ≡ spec.plain_props olds.now) }
{
    let mut all = Items::new(alloc);
    for prop in olds {
        all.push(prop_with(alloc, prop.name, prop.value.share()?))?;
    }
    Ok(all)
}

/// The props of a slot.
pub fn props_by(
    here: &Here<'_>,
    attrs: &[FragAttr],
    shape: Option<&Shape>,
) -> Result<SlotProps, NoMemory>
    ensures { IfOk result (λ all. all ≡ spec.props_by here.now.scene.now.source here.now.scene.now.program.now attrs.now here.now.view.now (opened (option_copied shape.entry))) }
{
    match here.scene.source {
        Source::Evaluated => props(here, attrs),
        Source::Recorded => plain_props(here.scene.alloc, props_of(shape)),
    }
}

// The view of an instance that is recorded, before its owner's.
fn recorded_view(
    scene: &Scene<'_>,
    inst: Inst,
    owner: Option<&View>,
) -> Result<Option<View>, NoMemory>
    ensures { IfOk result (λ view. view ≡ spec.recorded_view scene.now.showing.now (option_copied owner.entry) inst.number) }
{
    match scene.showing.get(inst) {
        Some(_) => {
            let cells = Vec::new(scene.alloc);
            let view = View::of(scene.alloc, inst, cells, owner)?;
            Ok(Some(view))
        }
        None => Ok(None),
    }
}

/// The view of an instance, before its owner's; none where it isn't live, or isn't shown.
pub fn view_by(
    scene: &Scene<'_>,
    inst: Inst,
    owner: Option<&View>,
) -> Result<Option<View>, NoMemory>
    ensures { IfOk result (λ view. view ≡ spec.view_by scene.now.source scene.now.world.now scene.now.showing.now (option_copied owner.entry) inst.number) }
{
    match scene.source {
        Source::Evaluated => scene.world.present_before(scene.alloc, inst, owner),
        Source::Recorded => recorded_view(scene, inst, owner),
    }
}
