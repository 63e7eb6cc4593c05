// The nodes of a page.
use crate::element::Element;
use sv_base::Text;

/// Nodes that stand beside one another, in document order.
pub type Nodes = sv_list::Items<Node>;

/// A node of a page: an element with its children, or a text. Its mark tells its place from turn to turn.
#[derive(Drop)]
pub enum Node {
    Element { element: Element, children: Nodes },
    Text { mark: u64, text: Text },
}
