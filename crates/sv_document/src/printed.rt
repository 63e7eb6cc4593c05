// The text of a page.
ghost use Rattle.std.specs.Prelude.{◌≡◌, ◌++◌, option_copied, IfOk, OnOk};
ghost use Rattle.sv_html.specs.Tag.{element_of};
ghost use Rattle.sv_document.specs.Printed as spec;
ghost use Rattle.sv_document.specs.Printed.{html, node_html};
ghost use Rattle.sv_document.specs.Shown.{shape_of};

use crate::element::Element;
use crate::numbers::Numbers;
use crate::tree::Node;
use std::alloc::Global;
use sv_base::NoMemory;
use sv_html::{Tag, push_end, push_start, push_text};

/// The text of these nodes. With `numbers`, each element that has a printed number shows it as the attribute `sv`, and each text in
/// a comment before it.
pub fn print(alloc: Global, nodes: &[Node], numbers: Option<&Numbers>) -> Result<Vec<u8>, NoMemory>
    ensures { IfOk result (λ text. text.items ≡ html (option_copied numbers.entry) nodes.now) }
{
    let mut out = Vec::new(alloc);
    push_nodes(alloc, &mut out, numbers, nodes)?;
    Ok(out)
}

#[cycle(walk)]
fn push_nodes(
    alloc: Global,
    out: &mut Vec<u8>,
    numbers: Option<&Numbers>,
    nodes: &[Node],
) -> Result<(), NoMemory>
    ensures { OnOk result (out.new.items ≡ out.old.items ++ html (option_copied numbers.entry) nodes.now) }
{
    for node in nodes {
        push_node(alloc, out, numbers, node)?;
    }
    Ok(())
}

#[cycle(walk)]
fn push_node(
    alloc: Global,
    out: &mut Vec<u8>,
    numbers: Option<&Numbers>,
    node: &Node,
) -> Result<(), NoMemory>
    ensures { OnOk result (out.new.items ≡ out.old.items ++ node_html (option_copied numbers.entry) node.now) }
{
    match node {
        Node::Element { element, children } => {
            let number = number_in(numbers, element.mark);
            push_start(alloc, out, tag_of(element, number))?;
            push_nodes(alloc, out, numbers, children.as_slice())?;
            push_end(out, element.name.as_str())
        }
        Node::Text { mark, text } => {
            push_text(alloc, out, number_in(numbers, *mark), text.as_str())
        }
    }
}

// The number that is printed of a node by its mark.
fn number_in(numbers: Option<&Numbers>, mark: u64) -> Option<u64>
    ensures { result ≡ spec.number_in (option_copied numbers.entry) mark }
{
    numbers?.get(mark)
}

// What an element shows of its own, with a printed number or none.
fn tag_of(element: &Element, number: Option<u64>) -> Tag<'_>
    ensures number { result.number ≡ number }
    ensures element { element_of result ≡ shape_of element.now }
{
    Tag {
        number,
        name: element.name.as_str(),
        attributes: element.attributes.as_slice(),
        typed: &element.typed,
    }
}
