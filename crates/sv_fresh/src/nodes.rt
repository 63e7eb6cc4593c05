// Texts and elements.
ghost use Rattle.std.specs.Prelude.{◌≡◌, ◌++◌, option_copied, IfOk, OnOk};
ghost use Rattle.sv_shapes.specs.Shapes.{opened, mark_in};
ghost use Rattle.sv_fresh.specs.Fresh as spec;
ghost use Rattle.sv_fresh.specs.Scene.{seen};
ghost use Rattle.sv_fresh.specs.Sources.{text_by as text_found};

use crate::listeners::listeners;
use crate::scene::Here;
use crate::source::{attributes_by, text_by};
use sv_base::{NoMemory, Text};
use sv_code::{FragAttr, Part};
use sv_document::{Element, Node, Nodes};
use sv_shapes::{Shape, element_of, mark_of, typed_of};
use sv_tokens::Typed;

/// A text with its mark, if it has one.
pub fn text_node(mark: Option<u64>, text: Text) -> Node
    ensures { result ≡ spec.text_node mark text }
{
    Node::Text {
        mark: mark.unwrap_or(0),
        text,
    }
}

/// Adds the text of an expression, if it has one.
pub fn show(
    here: &Here<'_>,
    part: &Part,
    shape: Option<&Shape>,
    nodes: &mut Nodes,
) -> Result<(), NoMemory>
    ensures { OnOk result (nodes.new ≡ nodes.old ++ spec.shown_text (mark_in (opened (option_copied shape.entry))) (text_found here.now.scene.now.source here.now.scene.now.program.now part.now here.now.view.now (opened (option_copied shape.entry)))) }
{
    match text_by(here, part, shape)? {
        Some(text) => nodes.push(text_node(mark_of(shape), text)),
        None => Ok(()),
    }
}

// The state that a user left, if there is one.
fn share_typed(typed: Option<&Typed>) -> Result<Option<Typed>, NoMemory>
    ensures { IfOk result (λ same. same ≡ option_copied typed.entry) }
{
    match typed {
        Some(typed) => Ok(Some(typed.share()?)),
        None => Ok(None),
    }
}

/// An element without its children, beside what is recorded of it.
pub fn element(
    here: &Here<'_>,
    name: &Text,
    attrs: &[FragAttr],
    shape: Option<&Shape>,
) -> Result<Element, NoMemory>
    ensures { IfOk result (λ element. element ≡ spec.element_of (seen here.now.scene.now).page name.now attrs.now here.now.view.now (opened (option_copied shape.entry))) }
{
    let typed = share_typed(typed_of(shape))?;
    let name = name.share()?;
    let attributes = attributes_by(here, attrs, shape)?;
    let listeners = listeners(here, attrs)?;
    Ok(Element {
        inst: here.scene.inst,
        mark: element_of(shape).unwrap_or(0),
        name,
        attributes,
        typed,
        listeners,
    })
}
