// The element that an event goes to, by its `id` or by places.
ghost use Rattle.std.specs.Prelude.{◌≡◌, IfOk, map, option_map};
ghost use Rattle.sv_document.specs.Target as spec;

use crate::element::Element;
use crate::tree::Node;
use std::alloc::Global;
use sv_base::NoMemory;
use sv_tokens::shows_id;

/// The first element in document order that shows that `id`, and then each one round it, to the outermost; `None` exactly where
/// no element shows it.
#[cycle(search)]
pub fn target<'a>(
    alloc: Global,
    nodes: &'a [Node],
    id: &str,
) -> Result<Option<Vec<&'a Element>>, NoMemory>
    ensures { IfOk result (λ found. option_map (λ path. map (λ e. e.now) path.items) found ≡ spec.target id.now nodes.now) }
{
    for node in nodes {
        if let Some(path) = in_node(alloc, node, id)? {
            return Ok(Some(path));
        }
    }
    Ok(None)
}

#[cycle(search)]
fn in_node<'a>(
    alloc: Global,
    node: &'a Node,
    id: &str,
) -> Result<Option<Vec<&'a Element>>, NoMemory>
    ensures { IfOk result (λ found. option_map (λ path. map (λ e. e.now) path.items) found ≡ spec.in_node id.now node.now) }
{
    let Node::Element { element, children } = node else {
        return Ok(None);
    };
    if shows_id(element.attributes.as_slice(), id) {
        return Ok(Some(vec![in alloc; element]?));
    }
    let Some(mut path) = target(alloc, children.as_slice(), id)? else {
        return Ok(None);
    };
    path.push(element)?;
    Ok(Some(path))
}

// An element and its children, at a place among the elements of some nodes.
fn element_at(nodes: &[Node], place: u32) -> Option<(&Element, &[Node])>
    ensures { option_map (λ found. (found.0.now, found.1.now)) result ≡ spec.element_at place nodes.now }
{
    let mut left = place;
    for node in nodes {
        if let Node::Element { element, children } = node {
            if left == 0 {
                return Some((element, children.as_slice()));
            }
            left -= 1;
        }
    }
    None
}

/// The element at some places, each from 0: the first is one among the elements of these nodes, each further one among the element children
/// of the one before. Then comes each one round it, to the outermost. `None` exactly where one of them has no element, or there are none.
pub fn at_places<'a>(
    alloc: Global,
    nodes: &'a [Node],
    places: &[u32],
) -> Result<Option<Vec<&'a Element>>, NoMemory>
    ensures { IfOk result (λ found. option_map (λ path. map (λ e. e.now) path.items) found ≡ spec.at_places places.now nodes.now) }
{
    let Some((place, further)) = places.split_first() else {
        return Ok(None);
    };
    let Some((element, children)) = element_at(nodes, *place) else {
        return Ok(None);
    };
    if further.is_empty() {
        return Ok(Some(vec![in alloc; element]?));
    }
    let Some(mut path) = at_places(alloc, children, further)? else {
        return Ok(None);
    };
    path.push(element)?;
    Ok(Some(path))
}
