// Nodes, as the rule of white space sees them.
ghost use Rattle.std.specs.Prelude.{◌≡◌, length, map, All, IfOk};
ghost use Rattle.sv_white.specs.White.{kept as spec_kept};
ghost use Rattle.sv_fragments.specs.Frags.{node as spec_node};
ghost use Rattle.sv_fragments.specs.Pieces.{made, numbered, numbered_tag, IsNumber};

use std::alloc::Global;
use sv_ast::{Markup, TagAttr};
use sv_base::NoMemory;
use sv_scopes::is_slotted;
use sv_white::{Piece, kept};

/// A text, or a node by its number among those beside it.
pub(crate) type Node = Piece<usize>;

/// What is kept of nodes that stand beside one another.
pub(crate) fn kept_nodes(
    alloc: Global,
    nodes: &[Markup],
    strips: bool,
) -> Result<Vec<Node>, NoMemory>
    ensures made { IfOk result (λ kept. map (made nodes.now) kept.items ≡ spec_kept strips (map spec_node nodes.now)) }
    ensures numbers { IfOk result (λ kept. All (IsNumber (length nodes.now)) kept.items) }
{
    let pieces = pieces_of(alloc, nodes)?;
    kept(alloc, &pieces, strips)
}

fn pieces_of(alloc: Global, nodes: &[Markup]) -> Result<Vec<Node>, NoMemory>
    ensures made { IfOk result (λ pieces. map (made nodes.now) pieces.items ≡ map spec_node nodes.now) }
    ensures numbers { IfOk result (λ pieces. All (IsNumber (length nodes.now)) pieces.items) }
{
    let mut pieces = Vec::new(alloc);
    for (number, node) in nodes.iter().enumerate() {
        pieces.push(piece_of(number, node)?)?;
    }
    Ok(pieces)
}

// A node with its number.
fn piece_of(number: usize, node: &Markup) -> Result<Node, NoMemory>
    ensures { IfOk result (λ piece. piece ≡ numbered number (spec_node node.now)) }
{
    match node {
        Markup::Text { text, .. } => Ok(Piece::Words(text.share()?)),
        Markup::Element { attrs, .. } => Ok(tag_piece(number, attrs.as_slice())),
        Markup::Comp { attrs, .. } => Ok(tag_piece(number, attrs.as_slice())),
        Markup::Slot { attrs, .. } => Ok(tag_piece(number, attrs.as_slice())),
        Markup::Show { .. } | Markup::If { .. } | Markup::Each { .. } | Markup::Key { .. } => {
            Ok(Piece::Other(number))
        }
    }
}

// A tag with its number.
fn tag_piece(number: usize, attrs: &[TagAttr]) -> Node
    ensures { result ≡ numbered_tag number attrs.now }
{
    if is_slotted(attrs) {
        Piece::Apart(number)
    } else {
        Piece::Other(number)
    }
}
