// The walk through templates.
ghost use Rattle.std.specs.Prelude.{◌≡◌, [], option_map, option_copied, unwrap_or, slice_get};
ghost use Rattle.sv_shapes.specs.Shapes.{opened, props_in as spec_props_in, parts_in as spec_parts_in};
ghost use Rattle.sv_plan.specs.Blocks.{tests};
ghost use Rattle.sv_plan.specs.Lists.{head_of};
ghost use Rattle.sv_plan.specs.Plan as spec;
ghost use Rattle.sv_plan.specs.Rows.{seen};
ghost use Rattle.sv_parts.specs.Sides.{sides};
ghost use Rattle.sv_parts.specs.State.{Meets};

use crate::blocks::{is_arm, settle, take_arm};
use crate::content::{content_at, outer_tags};
use crate::lists::{EachBlock, Entry, Listing, OldList, take_list};
use crate::rows::{NextRow, find_rows, old_parts, old_row, row_views};
use crate::slots::{content_view, take_props};
use sv_base::Text;
use sv_code::{Frag, FragArm, FragAttr, Frags, Part};
use sv_list::Items;
use sv_parts::{Here, PatchError, State, destroy, open, plan_literal, plan_show, plan_tag};
use sv_shapes::{
    Row, Rows, Shape, Shapes, SlotProp, arm_of, key_of, list_of, mark_of, parts_of, place_of,
    props_of, rows_of, texts_of,
};

// A `<slot>`: its name, its props, and its own content.
#[derive(Clone, Copy)]
struct SlotBlock<'a> {
    name: &'a Text,
    attrs: &'a [FragAttr],
    own: &'a [Frag],
}

// What was shown of the fragment with a number.
fn shape_at(shapes: &[Shape], index: usize) -> Option<&Shape>
    ensures { option_copied result ≡ slice_get shapes.now index }
{
    shapes.get(index)
}

/// Fragments that may be absent.
pub fn frags_of(frags: Option<&Frags>) -> &[Frag]
    ensures { result.now ≡ unwrap_or (option_copied frags.entry) [] }
{
    match frags {
        Some(frags) => frags.as_slice(),
        None => &[],
    }
}

/// The content of a branch, or of the last one.
pub fn body_of<'a>(arms: &'a [FragArm], last: &'a [Frag], arm: usize) -> &'a [Frag]
    ensures { result.now ≡ spec.body_in arms.now last.now arm }
{
    match arms.get(arm) {
        Some(arm) => arm.body.as_slice(),
        None => last,
    }
}

// Brings what is shown of a fragment to the present view.
#[cycle(walk)]
fn plan_one(
    here: &Here<'_>,
    frag: &Frag,
    old: Option<&Shape>,
    state: &mut State,
) -> Result<Shape, PatchError>
    ensures { Meets result state.new (spec.plan here.now.program.now here.now.tags.now frag.now (sides here.now) (option_copied old.entry) state.old) }
{
    match frag {
        Frag::Text(_) => plan_literal(mark_of(old), state),
        Frag::Show(part) => plan_show(here, part, old, state),
        Frag::Element {
            attrs,
            children,
            ..
        } => plan_element(here, attrs.as_slice(), children.as_slice(), old, state),
        Frag::Tag { tag, .. } => plan_tag(here, *tag, place_of(old), texts_of(old), state),
        Frag::Named { .. } => Ok(Shape::Nothing),
        Frag::Slot {
            name,
            attrs,
            own,
            ..
        } => {
            let slot = SlotBlock {
                name,
                attrs: attrs.as_slice(),
                own: own.as_slice(),
            };
            plan_slot(here, &slot, old, state)
        }
        Frag::If { arms, last } => {
            plan_if(here, arms.as_slice(), frags_of(last.as_ref()), old, state)
        }
        Frag::Each {
            list,
            item,
            index,
            key,
            body,
            none,
        } => {
            let block = EachBlock {
                list,
                item: *item,
                index: *index,
                key: key.as_ref(),
                body: body.as_slice(),
                none: frags_of(none.as_ref()),
            };
            plan_each(here, &block, old, state)
        }
        Frag::Key { value, body } => plan_key(here, value, body.as_slice(), old, state),
    }
}

/// Brings what is shown of fragments beside one another to the present view.
#[cycle(walk)]
pub fn plan_list(
    here: &Here<'_>,
    frags: &[Frag],
    shapes: &[Shape],
    state: &mut State,
) -> Result<Shapes, PatchError>
    ensures { Meets result state.new (spec.plan_all here.now.program.now here.now.tags.now frags.now (sides here.now) shapes.now state.old) }
{
    let mut parts = Items::new(here.alloc);
    for index in 0..frags.len() {
        match plan_one(here, &frags[index], shape_at(shapes, index), state) {
            Ok(part) => parts.push(part)?,
            Err(error) => return Err(error),
        }
    }
    Ok(parts)
}

// Content that stays, or content in the place of what was there.
#[cycle(walk)]
fn plan_kept(
    here: &Here<'_>,
    frags: &[Frag],
    kept: bool,
    shapes: &[Shape],
    state: &mut State,
) -> Result<Shapes, PatchError>
    ensures { Meets result state.new (spec.kept_step (spec.plan_all here.now.program.now here.now.tags.now frags.now) (sides here.now) kept shapes.now state.old) }
{
    if kept {
        return plan_list(here, frags, shapes, state);
    }
    match destroy(here.alloc, shapes, state) {
        Ok(()) => plan_list(here, frags, &[], state),
        Err(error) => Err(error),
    }
}

#[cycle(walk)]
fn plan_element(
    here: &Here<'_>,
    attrs: &[FragAttr],
    children: &[Frag],
    old: Option<&Shape>,
    state: &mut State,
) -> Result<Shape, PatchError>
    ensures { Meets result state.new (spec.element_step here.now.program.now attrs.now (spec.plan_all here.now.program.now here.now.tags.now children.now) (sides here.now) (opened (option_copied old.entry)) state.old) }
{
    match open(here, attrs, old, state) {
        Ok(opening) => match plan_list(here, children, parts_of(old), state) {
            Ok(parts) => Ok(Shape::Element {
                mark: opening.mark,
                typed: opening.typed,
                states: opening.states,
                parts,
            }),
            Err(error) => Err(error),
        },
        Err(error) => Err(error),
    }
}

#[cycle(walk)]
fn plan_if(
    here: &Here<'_>,
    arms: &[FragArm],
    last: &[Frag],
    old: Option<&Shape>,
    state: &mut State,
) -> Result<Shape, PatchError>
    ensures { Meets result state.new (spec.if_step here.now.program.now (tests arms.now) (λ i. spec.plan_all here.now.program.now here.now.tags.now (spec.body_in arms.now last.now i)) (sides here.now) (opened (option_copied old.entry)) state.old) }
{
    match take_arm(here, arms, arm_of(old), state) {
        Ok(arm) => {
            let kept = is_arm(arm_of(old), arm);
            match plan_kept(here, body_of(arms, last, arm), kept, parts_of(old), state) {
                Ok(parts) => Ok(Shape::If { arm, parts }),
                Err(error) => Err(error),
            }
        }
        Err(error) => Err(error),
    }
}

#[cycle(walk)]
fn plan_key(
    here: &Here<'_>,
    part: &Part,
    body: &[Frag],
    old: Option<&Shape>,
    state: &mut State,
) -> Result<Shape, PatchError>
    ensures { Meets result state.new (spec.key_step here.now.program.now part.now (spec.plan_all here.now.program.now here.now.tags.now body.now) (sides here.now) (opened (option_copied old.entry)) state.old) }
{
    match settle(here, part, key_of(old), state) {
        Ok(settled) => match plan_kept(here, body, settled.kept, parts_of(old), state) {
            Ok(parts) => Ok(Shape::Key {
                state: settled.state,
                parts,
            }),
            Err(error) => Err(error),
        },
        Err(error) => Err(error),
    }
}

// A row to come.
#[cycle(walk)]
fn plan_row(
    here: &Here<'_>,
    block: &EachBlock<'_>,
    next: &NextRow<'_>,
    state: &mut State,
) -> Result<Row, PatchError>
    ensures { Meets result state.new (spec.row_step (head_of block.now) (spec.plan_all here.now.program.now here.now.tags.now block.now.body.now) (sides here.now) next.now.old_list next.now.list (option_map seen next.now.old) next.now.index next.now.entry.now state.old) }
{
    let views = row_views(here, block, next)?;
    let inner = Here {
        old: &views.old,
        new: &views.new,
        ..*here
    };
    let key = next.entry.key.share()?;
    let item = next.entry.item.share()?;
    match plan_list(&inner, block.body, old_parts(next.old), state) {
        Ok(parts) => Ok(Row { key, item, parts }),
        Err(error) => Err(error),
    }
}

// The rows in order.
#[cycle(walk)]
fn plan_rows(
    here: &Here<'_>,
    block: &EachBlock<'_>,
    listing: &Listing,
    old: &OldList<'_>,
    state: &mut State,
) -> Result<Rows, PatchError>
    ensures { Meets result state.new (spec.rows_step (head_of block.now) (spec.plan_all here.now.program.now here.now.tags.now block.now.body.now) (sides here.now) (unwrap_or old.now.number 0) listing.now old.now.rows.now state.old) }
{
    let entries = listing.entries.as_slice();
    let places = find_rows(here.alloc, entries, old.rows)?;
    let mut rows = Items::new(here.alloc);
    for index in 0..entries.len() {
        let next = NextRow {
            list: listing.number,
            index,
            entry: &entries[index],
            old_list: old.number.unwrap_or(0),
            old: old_row(old.rows, &places, index),
        };
        match plan_row(here, block, &next, state) {
            Ok(row) => rows.push(row)?,
            Err(error) => return Err(error),
        }
    }
    Ok(rows)
}

// The branch for no rows, where there are none.
#[cycle(walk)]
fn plan_none(
    here: &Here<'_>,
    none: &[Frag],
    entries: &[Entry],
    shapes: &[Shape],
    state: &mut State,
) -> Result<Shapes, PatchError>
    ensures { Meets result state.new (spec.none_step (spec.plan_all here.now.program.now here.now.tags.now none.now) (sides here.now) entries.now shapes.now state.old) }
{
    match entries {
        [] => plan_list(here, none, shapes, state),
        [_, ..] => Ok(Items::new(here.alloc)),
    }
}

#[cycle(walk)]
fn plan_each(
    here: &Here<'_>,
    block: &EachBlock<'_>,
    old: Option<&Shape>,
    state: &mut State,
) -> Result<Shape, PatchError>
    ensures { Meets result state.new (spec.each_step here.now.program.now (head_of block.now) (spec.plan_all here.now.program.now here.now.tags.now block.now.body.now) (spec.plan_all here.now.program.now here.now.tags.now block.now.none.now) (sides here.now) (opened (option_copied old.entry)) state.old) }
{
    let before = OldList {
        number: list_of(old),
        rows: rows_of(old),
        none: parts_of(old),
    };
    match take_list(here, block, &before, state) {
        Ok(listing) => plan_listed(here, block, listing, &before, state),
        Err(error) => Err(error),
    }
}

// The rows of a list, and the branch for no rows.
#[cycle(walk)]
fn plan_listed(
    here: &Here<'_>,
    block: &EachBlock<'_>,
    listing: Listing,
    before: &OldList<'_>,
    state: &mut State,
) -> Result<Shape, PatchError>
    ensures { Meets result state.new (spec.listed_step (head_of block.now) (spec.plan_all here.now.program.now here.now.tags.now block.now.body.now) (spec.plan_all here.now.program.now here.now.tags.now block.now.none.now) (sides here.now) before.now.number before.now.rows.now before.now.none.now listing state.old) }
{
    match plan_rows(here, block, &listing, before, state) {
        Ok(rows) => {
            let entries = listing.entries.as_slice();
            match plan_none(here, block.none, entries, before.none, state) {
                Ok(none) => Ok(Shape::Each {
                    number: listing.number,
                    rows,
                    none,
                }),
                Err(error) => Err(error),
            }
        }
        Err(error) => Err(error),
    }
}

// The content that is given to a slot, on the owner's view, or else its own.
#[cycle(walk)]
fn plan_content(
    here: &Here<'_>,
    slot: &SlotBlock<'_>,
    props: &[SlotProp],
    old: Option<&Shape>,
    state: &mut State,
) -> Result<Shapes, PatchError>
    ensures { Meets result state.new (spec.content_step (spec.slotted here.now.program.now here.now.tags.now slot.now.name.now) (spec.plan_all here.now.program.now here.now.tags.now slot.now.own.now) (sides here.now) (spec_props_in (opened (option_copied old.entry))) props.now (spec_parts_in (opened (option_copied old.entry))) state.old) }
{
    match content_at(here.program, here.tags, slot.name.as_str()) {
        Some(content) => {
            let old_view = content_view(content.lets, props_of(old), here.old)?;
            let new_view = content_view(content.lets, props, here.new)?;
            let inner = Here {
                tags: outer_tags(here.tags),
                old: &old_view,
                new: &new_view,
                ..*here
            };
            plan_list(&inner, content.frags, parts_of(old), state)
        }
        None => plan_list(here, slot.own, parts_of(old), state),
    }
}

#[cycle(walk)]
fn plan_slot(
    here: &Here<'_>,
    slot: &SlotBlock<'_>,
    old: Option<&Shape>,
    state: &mut State,
) -> Result<Shape, PatchError>
    ensures { Meets result state.new (spec.slot_step here.now.program.now slot.now.attrs.now (spec.slotted here.now.program.now here.now.tags.now slot.now.name.now) (spec.plan_all here.now.program.now here.now.tags.now slot.now.own.now) (sides here.now) (opened (option_copied old.entry)) state.old) }
{
    match take_props(here, slot.attrs, props_of(old), state) {
        Ok(props) => match plan_content(here, slot, props.as_slice(), old, state) {
            Ok(parts) => Ok(Shape::Slot { props, parts }),
            Err(error) => Err(error),
        },
        Err(error) => Err(error),
    }
}
