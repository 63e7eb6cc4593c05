// Fragments, drawn.
ghost use Rattle.std.specs.Prelude.{◌≡◌, ◌<◌, ◌++◌, ◌∷◌, [], length, Some, map, option_copied, slice_get, IfOk, OnOk};
ghost use Rattle.sv_document.specs.declared.tree.Node.TheVariants as node;
ghost use Rattle.sv_plan.specs.Content.{seen as content_seen};
ghost use Rattle.sv_shapes.specs.Shapes.{opened};
ghost use Rattle.sv_plan.specs.Lists.{head_of};
ghost use Rattle.sv_fresh.specs.Scene.{seen};
ghost use Rattle.sv_fresh.specs.Sources.{items_by as items_found};
ghost use Rattle.sv_fresh.specs.Fresh as spec;

use crate::blocks::row_parts;
use crate::nodes::{element, show, text_node};
use crate::scene::{Here, Scene, markup_at, parts_at};
use crate::source::{arm_by, items_by, props_by, view_by};
use sv_base::NoMemory;
use sv_code::{Frag, FragAttr};
use sv_document::{Element, Node, Nodes};
use sv_list::Items;
use sv_plan::{
    Content, EachBlock, Spot, body_of, content_at, content_view, frags_of, outer_tags, row_view,
};
use sv_shapes::{Held, Row, Shape, mark_of, parts_of, place_of, rows_of};
use sv_value::Inst;
use sv_view::View;

fn shape_at(shapes: &[Shape], index: usize) -> Option<&Shape>
    ensures { option_copied result ≡ slice_get shapes.now index }
{
    shapes.get(index)
}

// Adds the nodes of fragments beside one another.
#[cycle(draw)]
fn draw_all(
    here: &Here<'_>,
    frags: &[Frag],
    shapes: &[Shape],
    nodes: &mut Nodes,
) -> Result<(), NoMemory>
    ensures { OnOk result (nodes.new ≡ nodes.old ++ spec.drawn_all (seen here.now.scene.now) frags.now here.now.view.now shapes.now) }
{
    for index in 0..frags.len() {
        draw(here, &frags[index], shape_at(shapes, index), nodes)?;
    }
    Ok(())
}

// Adds the nodes of a fragment, beside what is recorded of it.
#[cycle(draw)]
fn draw(
    here: &Here<'_>,
    frag: &Frag,
    shape: Option<&Shape>,
    nodes: &mut Nodes,
) -> Result<(), NoMemory>
    ensures { OnOk result (nodes.new ≡ nodes.old ++ spec.frag_drawn (seen here.now.scene.now) frag.now here.now.view.now (option_copied shape.entry)) }
{
    match frag {
        Frag::Text(text) => nodes.push(text_node(mark_of(shape), text.share()?)),
        Frag::Show(part) => show(here, part, shape, nodes),
        Frag::Element {
            name,
            attrs,
            children,
            ..
        } => {
            let element = element(here, name, attrs.as_slice(), shape)?;
            draw_children(here, element, children.as_slice(), parts_of(shape), nodes)
        }
        Frag::Tag { tag, .. } => draw_tag(here, *tag, place_of(shape), nodes),
        Frag::Named { .. } => Ok(()),
        Frag::Slot {
            name,
            attrs,
            own,
            ..
        } => match content_at(here.scene.program, here.scene.tags, name.as_str()) {
            Some(content) => draw_content(here, &content, attrs.as_slice(), shape, nodes),
            None => draw_all(here, own.as_slice(), parts_of(shape), nodes),
        },
        Frag::If { arms, last } => {
            let arm = arm_by(here, arms.as_slice(), shape)?;
            let body = body_of(arms.as_slice(), frags_of(last.as_ref()), arm);
            draw_all(here, body, parts_of(shape), nodes)
        }
        Frag::Each {
            list,
            item,
            index,
            key,
            body,
            none,
        } => {
            let block = EachBlock {
                list,
                item: *item,
                index: *index,
                key: key.as_ref(),
                body: body.as_slice(),
                none: frags_of(none.as_ref()),
            };
            draw_list(here, &block, shape, nodes)
        }
        Frag::Key { body, .. } => draw_all(here, body.as_slice(), parts_of(shape), nodes),
    }
}

// Adds an element with the nodes of its children.
#[cycle(draw)]
fn draw_children(
    here: &Here<'_>,
    element: Element,
    frags: &[Frag],
    shapes: &[Shape],
    nodes: &mut Nodes,
) -> Result<(), NoMemory>
    ensures { OnOk result (nodes.new ≡ nodes.old ++ node.Element element (spec.drawn_all (seen here.now.scene.now) frags.now here.now.view.now shapes.now) ∷ []) }
{
    let mut children = Items::new(here.scene.alloc);
    draw_all(here, frags, shapes, &mut children)?;
    nodes.push(Node::Element { element, children })
}

// Adds the nodes of the rows of a list, or of the branch for none.
#[cycle(draw)]
fn draw_list(
    here: &Here<'_>,
    block: &EachBlock<'_>,
    shape: Option<&Shape>,
    nodes: &mut Nodes,
) -> Result<(), NoMemory>
    ensures { OnOk result (nodes.new ≡ nodes.old ++ spec.list_nodes (head_of block.now) (spec.drawn_all (seen here.now.scene.now) block.now.body.now) (spec.drawn_all (seen here.now.scene.now) block.now.none.now) here.now.view.now (opened (option_copied shape.entry)) (items_found here.now.scene.now.source here.now.scene.now.program.now block.now.list.now here.now.view.now (opened (option_copied shape.entry)))) }
{
    let items = items_by(here, block.list, shape)?;
    if items.is_empty() {
        draw_all(here, block.none, parts_of(shape), nodes)
    } else {
        draw_rows(here, block, items.as_slice(), rows_of(shape), nodes)
    }
}

// Adds the nodes of the rows of these items.
#[cycle(draw)]
fn draw_rows(
    here: &Here<'_>,
    block: &EachBlock<'_>,
    items: &[Held],
    shapes: &[Row],
    nodes: &mut Nodes,
) -> Result<(), NoMemory>
    ensures { OnOk result (nodes.new ≡ nodes.old ++ spec.rows_nodes (head_of block.now) (spec.drawn_all (seen here.now.scene.now) block.now.body.now) here.now.view.now shapes.now items.now) }
{
    for index in 0..items.len() {
        let spot = Spot {
            list: 0,
            index,
            item: items[index].get(),
        };
        let view = row_view(block, &spot, here.view)?;
        draw_on(
            here.scene,
            &view,
            block.body,
            row_parts(shapes, index),
            nodes,
        )?;
    }
    Ok(())
}

// Adds the nodes of fragments on a view.
#[cycle(draw)]
fn draw_on(
    scene: &Scene<'_>,
    view: &View,
    frags: &[Frag],
    shapes: &[Shape],
    nodes: &mut Nodes,
) -> Result<(), NoMemory>
    ensures { OnOk result (nodes.new ≡ nodes.old ++ spec.drawn_all (seen scene.now) frags.now view.now shapes.now) }
{
    let here = Here {
        scene: &*scene,
        view: &*view,
    };
    draw_all(&here, frags, shapes, nodes)
}

// Adds the nodes of content that is given to a slot.
#[cycle(draw)]
fn draw_content(
    here: &Here<'_>,
    content: &Content<'_>,
    attrs: &[FragAttr],
    shape: Option<&Shape>,
    nodes: &mut Nodes,
) -> Result<(), NoMemory>
    ensures { OnOk result (nodes.new ≡ nodes.old ++ spec.content_drawn (seen here.now.scene.now) (content_seen content.now) attrs.now here.now.view.now (opened (option_copied shape.entry))) }
{
    let given = props_by(here, attrs, shape)?;
    let view = content_view(content.lets, given.as_slice(), here.view)?;
    let scene = Scene {
        tags: outer_tags(here.scene.tags),
        ..*here.scene
    };
    draw_on(&scene, &view, content.frags, parts_of(shape), nodes)
}

// Adds the nodes of the child at a place, if one stands there, by the number of its tag.
#[cycle(draw)]
fn draw_tag(
    here: &Here<'_>,
    tag: u32,
    place: Option<u64>,
    nodes: &mut Nodes,
) -> Result<(), NoMemory>
    ensures { OnOk result (nodes.new ≡ nodes.old ++ spec.child_drawn (seen here.now.scene.now) tag here.now.view.now place) }
{
    let Some(place) = place else {
        return Ok(());
    };
    let Some(child) = here.scene.showing.child(place) else {
        return Ok(());
    };
    let tags = tags_below(here.scene, tag)?;
    let scene = Scene {
        tags: tags.as_slice(),
        ..*here.scene
    };
    draw_instance(&scene, child, Some(here.view), nodes)
}

// The tags of the view of a child with a tag.
fn tags_below(scene: &Scene<'_>, tag: u32) -> Result<Items<Option<u32>>, NoMemory>
    ensures { IfOk result (λ tags. tags ≡ Some tag ∷ scene.now.tags.now) }
{
    let mut tags = Items::new(scene.alloc);
    tags.push(Some(tag))?;
    tags.extend_from_slice(scene.tags)?;
    Ok(tags)
}

/// Adds the nodes of an instance on its own view before its owner's; none where it has no view, or stands too deep.
#[cycle(draw)]
pub fn draw_instance(
    scene: &Scene<'_>,
    inst: Inst,
    owner: Option<&View>,
    nodes: &mut Nodes,
) -> Result<(), NoMemory>
    ensures { OnOk result (nodes.new ≡ nodes.old ++ spec.instance_nodes (seen scene.now).page scene.now.room scene.now.tags.now (option_copied owner.entry) inst.number) }
{
    let Some(room) = scene.room.checked_sub(1) else {
        return Ok(());
    };
    let Some(view) = view_by(scene, inst, owner)? else {
        return Ok(());
    };
    let inside = Scene {
        inst,
        room,
        ..*scene
    };
    draw_on(
        &inside,
        &view,
        markup_at(scene, inst),
        parts_at(scene, inst),
        nodes,
    )
}
