// What nodes of a document ask a page to show.
ghost use Rattle.std.specs.Prelude.{◌≡◌, ◌++◌, ◌∷◌, [], IfOk, OnOk};
ghost use Rattle.sv_follow.specs.Outline as spec;
ghost use Rattle.sv_live.specs.declared.node.Node.TheVariants as wanted;

use std::alloc::Global;
use sv_base::NoMemory;
use sv_document::{Element, Node};
use sv_list::Items;
use sv_live::{Attributes, Node as Wanted, Nodes, Own, share_typed};

/// What nodes ask for: each element and each text with its mark, and of the attributes of an element those whose slots ascend.
pub fn outline(alloc: Global, nodes: &[Node]) -> Result<Nodes, NoMemory>
    ensures { IfOk result (λ all. all ≡ spec.outline nodes.now) }
{
    let mut all = Items::new(alloc);
    outline_all(alloc, nodes, &mut all)?;
    Ok(all)
}

// Adds what nodes ask for.
#[cycle(outline)]
fn outline_all(alloc: Global, nodes: &[Node], all: &mut Nodes) -> Result<(), NoMemory>
    ensures { OnOk result (all.new ≡ all.old ++ spec.outline nodes.now) }
{
    for node in nodes {
        outline_one(alloc, node, all)?;
    }
    Ok(())
}

#[cycle(outline)]
fn outline_one(alloc: Global, node: &Node, all: &mut Nodes) -> Result<(), NoMemory>
    ensures { OnOk result (all.new ≡ all.old ++ spec.outline_one node.now ∷ []) }
{
    match node {
        Node::Element { element, children } => {
            let own = own_of(alloc, element)?;
            outline_in(alloc, children.as_slice(), own, all)
        }
        Node::Text { mark, text } => {
            let text = text.share()?;
            all.push(Wanted::Text { mark: *mark, text })
        }
    }
}

// Adds an element, and in it what its children ask for.
#[cycle(outline)]
fn outline_in(alloc: Global, children: &[Node], own: Own, all: &mut Nodes) -> Result<(), NoMemory>
    ensures { OnOk result (all.new ≡ all.old ++ wanted.Element own (spec.outline children.now) ∷ []) }
{
    let mut parts = Items::new(alloc);
    outline_all(alloc, children, &mut parts)?;
    all.push(Wanted::Element { own, parts })
}

// What an element shows of its own.
fn own_of(alloc: Global, element: &Element) -> Result<Own, NoMemory>
    ensures { IfOk result (λ own. own ≡ spec.own_of element.now) }
{
    let name = element.name.share()?;
    let attributes = Attributes::of(alloc, element.attributes.as_slice())?;
    let typed = share_typed(&element.typed)?;
    Ok(Own {
        mark: element.mark,
        name,
        attributes,
        typed,
    })
}
