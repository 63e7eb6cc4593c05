// The marks of nodes.
ghost use Rattle.std.specs.Prelude.{◌≡◌, ◌++◌, IfOk, OnOk};
ghost use Rattle.sv_document.specs.Marks.{marks, node_marks};

use crate::tree::Node;
use std::alloc::Global;
use sv_base::NoMemory;
use sv_list::Items;

/// The marks of nodes and of all below them, in document order.
pub fn marks_of(alloc: Global, nodes: &[Node]) -> Result<Items<u64>, NoMemory>
    ensures { IfOk result (λ found. found ≡ marks nodes.now) }
{
    let mut found = Items::new(alloc);
    push_all(&mut found, nodes)?;
    Ok(found)
}

#[cycle(marks)]
fn push_all(found: &mut Items<u64>, nodes: &[Node]) -> Result<(), NoMemory>
    ensures { OnOk result (found.new ≡ found.old ++ marks nodes.now) }
{
    for node in nodes {
        push_one(found, node)?;
    }
    Ok(())
}

#[cycle(marks)]
fn push_one(found: &mut Items<u64>, node: &Node) -> Result<(), NoMemory>
    ensures { OnOk result (found.new ≡ found.old ++ node_marks node.now) }
{
    match node {
        Node::Element { element, children } => {
            found.push(element.mark)?;
            push_all(found, children.as_slice())
        }
        Node::Text { mark, .. } => found.push(*mark),
    }
}
