// The elements of a page that match a selector.
ghost use Rattle.std.specs.Prelude.{◌≡◌, ◌++◌, map, IfOk, OnOk};
ghost use Rattle.sv_select.specs.Matching.{matches_in, own};
ghost use Rattle.sv_select.specs.Search as spec;
ghost use Rattle.sv_select.specs.Seen.{seen};
ghost use Rattle.sv_select.specs.Texts.{text_in};

use crate::reach::{Reach, enter, on_page};
use crate::selector::{Link, Selector};
use std::alloc::Global;
use sv_base::NoMemory;
use sv_document::{Element, Node};

/// An element that matches a selector, and its children.
#[derive(Clone, Copy)]
pub struct Match<'a> {
    pub element: &'a Element,
    pub children: &'a [Node],
}

fn push_own<'a>(
    is_match: bool,
    element: &'a Element,
    children: &'a [Node],
    found: &mut Vec<Match<'a>>,
) -> Result<(), NoMemory>
    ensures { OnOk result (map seen found.new.items ≡ map seen found.old.items ++ own is_match element.now (text_in children.now)) }
{
    if is_match {
        found.push(Match { element, children })?;
    }
    Ok(())
}

#[cycle(search)]
fn push_matches<'a>(
    alloc: Global,
    links: &[Link],
    reached: &[Reach],
    nodes: &'a [Node],
    found: &mut Vec<Match<'a>>,
) -> Result<(), NoMemory>
    ensures { OnOk result (map seen found.new.items ≡ map seen found.old.items ++ spec.found_in links.now reached.now nodes.now) }
{
    for node in nodes {
        push_from(alloc, links, reached, node, found)?;
    }
    Ok(())
}

#[cycle(search)]
fn push_from<'a>(
    alloc: Global,
    links: &[Link],
    reached: &[Reach],
    node: &'a Node,
    found: &mut Vec<Match<'a>>,
) -> Result<(), NoMemory>
    ensures { OnOk result (map seen found.new.items ≡ map seen found.old.items ++ spec.found_from links.now reached.now node.now) }
{
    match node {
        Node::Element { element, children } => {
            let inside = enter(alloc, links, reached, element)?;
            let children = children.as_slice();
            push_own(inside.is_match, element, children, found)?;
            push_matches(alloc, links, inside.reached.as_slice(), children, found)
        }
        Node::Text { .. } => Ok(()),
    }
}

/// The elements among these nodes and below them that match a selector, in document order, each once.
pub fn matches<'a>(
    alloc: Global,
    nodes: &'a [Node],
    selector: &Selector,
) -> Result<Vec<Match<'a>>, NoMemory>
    ensures { IfOk result (λ found. map seen found.items ≡ matches_in selector.now nodes.now) }
{
    let links = selector.links.as_slice();
    let reached = on_page(alloc, links)?;
    let mut found = Vec::new(alloc);
    push_matches(alloc, links, reached.as_slice(), nodes, &mut found)?;
    Ok(found)
}
