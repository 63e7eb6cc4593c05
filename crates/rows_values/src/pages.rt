// The steps by which a page is built.
ghost use Rattle.std.specs.Prelude.{ℕ, ◌≢◌, ◌∷◌, [], None, IfOk, OnOk};
ghost use Rattle.sv_tokens.specs.Counting.{Has};
ghost use Rattle.sv_tokens.specs.Token.{named, Text as text_token, opens, name_at, IsPlace};
ghost use Rattle.sv_tokens.specs.Replay.{element_tokens, Gains};

use std::alloc::Global;
use sv_base::{NoMemory, Text};
use sv_dom::{Attr, Dom, Node, Typed};

/// Makes a text, the last child of a node.
pub(crate) fn add_text(
    alloc: Global,
    dom: &mut Dom,
    parent: Node,
    text: &str,
) -> Result<Node, NoMemory>
    requires { IsPlace dom.old.tokens parent.0 None }
    ensures { IfOk result (λ node. Gains dom.old dom.new parent.0 None node.0
        (text_token (named node.0 dom.old.next) (name_at parent.0 dom.old.tokens) None text.now ∷ [])) }
{
    let text = Text::new(alloc, text)?;
    let (node, made) = dom.make_text(parent, None, text)?;
    drop(made);
    Ok(node)
}

/// Makes an element, the last child of a node.
pub(crate) fn add_element(
    alloc: Global,
    dom: &mut Dom,
    parent: Node,
    name: &str,
) -> Result<Node, NoMemory>
    requires { IsPlace dom.old.tokens parent.0 None }
    ensures { IfOk result (λ node. Gains dom.old dom.new parent.0 None node.0
        (element_tokens (named node.0 dom.old.next) (name_at parent.0 dom.old.tokens) name.now)) }
{
    let name = Text::new(alloc, name)?;
    let (node, made) = dom.make_element(parent, None, name)?;
    drop(made);
    Ok(node)
}

/// Makes a text, the last child of the page.
pub(crate) fn push_text(alloc: Global, dom: &mut Dom, text: &str) -> Result<Node, NoMemory>
    ensures { IfOk result (λ node. Gains dom.old dom.new 0 None node.0
        (text_token (named node.0 dom.old.next) (name_at 0 dom.old.tokens) None text.now ∷ [])) }
{
    let page = dom.page();
    add_text(alloc, dom, page, text)
}

/// Makes an element, the last child of the page.
pub(crate) fn push_element(alloc: Global, dom: &mut Dom, name: &str) -> Result<Node, NoMemory>
    ensures made { IfOk result (λ node. Gains dom.old dom.new 0 None node.0
        (element_tokens (named node.0 dom.old.next) (name_at 0 dom.old.tokens) name.now)) }
    ensures page { Has (opens 0) dom.old.tokens }
{
    let page = dom.page();
    add_element(alloc, dom, page, name)
}

/// A page of one element, with its node.
pub(crate) fn page_of(alloc: Global, name: &str) -> Result<(Dom, Node), NoMemory>
    ensures page { IfOk result (λ made. Has (opens 0) made.0.tokens) }
    ensures stands { IfOk result (λ made. Has (opens made.1.0) made.0.tokens) }
    ensures below { IfOk result (λ made. made.1.0 ≢ 0) }
{
    let mut dom = Dom::new(alloc)?;
    let node = push_element(alloc, &mut dom, name)?;
    Ok((dom, node))
}

/// Lays what was typed over an element, and says whether that is told. Each element stands as before.
pub(crate) fn lay(dom: &mut Dom, node: Node, typed: Option<Typed>) -> Result<bool, NoMemory>
    requires stands { Has (opens node.0) dom.old.tokens }
    requires below { node.0 ≢ 0 }
    ensures { OnOk result ((key : ℕ) → Has (opens key) dom.old.tokens → Has (opens key) dom.new.tokens) }
{
    let told = dom.set_typed(node, typed)?;
    Ok(told.is_some())
}

/// Gives an element an attribute, and says whether that is told. Each element stands as before.
pub(crate) fn give(
    alloc: Global,
    dom: &mut Dom,
    node: Node,
    slot: u16,
    name: &str,
    attr: Attr,
) -> Result<bool, NoMemory>
    requires stands { Has (opens node.0) dom.old.tokens }
    requires below { node.0 ≢ 0 }
    ensures { OnOk result ((key : ℕ) → Has (opens key) dom.old.tokens → Has (opens key) dom.new.tokens) }
{
    let name = Text::new(alloc, name)?;
    let told = dom.set_attr(node, slot, name, attr)?;
    Ok(told.is_some())
}
