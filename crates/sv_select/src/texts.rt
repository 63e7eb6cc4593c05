// Texts of nodes.
ghost use Rattle.std.specs.Prelude.{◌≡◌, ◌++◌, OnOk, string_bytes};
ghost use Rattle.sv_select.specs.Texts.{text_in, node_text};

use sv_base::NoMemory;
use sv_document::Node;

// The texts of nodes and of all below them, behind others.
#[cycle(texts)]
pub(crate) fn push_texts(out: &mut String, nodes: &[Node]) -> Result<(), NoMemory>
    ensures { OnOk result (string_bytes out.new ≡ string_bytes out.old ++ text_in nodes.now) }
{
    for node in nodes {
        push_text(out, node)?;
    }
    Ok(())
}

#[cycle(texts)]
fn push_text(out: &mut String, node: &Node) -> Result<(), NoMemory>
    ensures { OnOk result (string_bytes out.new ≡ string_bytes out.old ++ node_text node.now) }
{
    match node {
        Node::Element { children, .. } => push_texts(out, children.as_slice()),
        Node::Text { text, .. } => Ok(out.push_str(text.as_str())?),
    }
}
