// What is told of changes of pages.
ghost use Rattle.std.specs.Prelude.{ℕ, Bool, ◌≢◌, IfOk, OnOk};
ghost use Rattle.sv_tokens.specs.Counting.{Has};
ghost use Rattle.sv_tokens.specs.Token.{Token, is_child, opens, texts};

use crate::pages::{add_element, give, lay, page_of, push_text};
use std::alloc::{AllocError, Global};
use sv_base::{NoMemory, Text};
use sv_dom::{Attr, Change, Dom, Node, Typed};
use sv_rows::{push_part, yes_or_no};

/// Whether the text `a` of a page tells when it is given another.
pub fn text_set(alloc: Global, text: &str) -> Result<String, NoMemory> {
    let (mut dom, node) = page_of_text(alloc)?;
    let told = dom.set_text(node, Text::new(alloc, text)?)?;
    Ok(String::from_str(alloc, yes_or_no(told.is_some()))?)
}

// A page of an anchor and the text `a`, with the text.
fn page_of_text(alloc: Global) -> Result<(Dom, Node), NoMemory>
    ensures { IfOk result (λ made. Has (texts made.1.0) made.0.tokens) }
{
    let mut dom = Dom::new(alloc)?;
    dom.make_anchor(dom.page(), None)?;
    let node = push_text(alloc, &mut dom, "a")?;
    Ok((dom, node))
}

/// Whether an element that is changed tells, and whether it does when it is changed so again.
pub fn twice(alloc: Global, change: &str) -> Result<String, NoMemory> {
    let (first, second) = match change {
        "checked" => checked_twice(alloc)?,
        "given an attribute" => opened_twice(alloc)?,
        _ => closed_twice(alloc)?,
    };
    Ok(format!(in alloc; "{} {}", yes_or_no(first), yes_or_no(second))?)
}

// Checks a box, and says whether that is told. Each element stands as before.
fn check(dom: &mut Dom, node: Node) -> Result<bool, NoMemory>
    requires stands { Has (opens node.0) dom.old.tokens }
    requires below { node.0 ≢ 0 }
    ensures { OnOk result ((key : ℕ) → Has (opens key) dom.old.tokens → Has (opens key) dom.new.tokens) }
{
    lay(dom, node, Some(Typed::Checked(true)))
}

// Gives an element the attribute `open`, and says whether that is told. Each element stands as before.
fn open(alloc: Global, dom: &mut Dom, node: Node) -> Result<bool, NoMemory>
    requires stands { Has (opens node.0) dom.old.tokens }
    requires below { node.0 ≢ 0 }
    ensures { OnOk result ((key : ℕ) → Has (opens key) dom.old.tokens → Has (opens key) dom.new.tokens) }
{
    give(alloc, dom, node, 3, "open", Attr::Flag)
}

// Takes that attribute away, and says whether that is told. The element stands as before.
fn close(dom: &mut Dom, node: Node) -> bool
    requires stands { Has (opens node.0) dom.old.tokens }
    requires below { node.0 ≢ 0 }
    ensures { Has (opens node.0) dom.new.tokens }
{
    dom.drop_attr(node, 3).is_some()
}

fn checked_twice(alloc: Global) -> Result<(bool, bool), NoMemory> {
    let (mut dom, node) = page_of(alloc, "p")?;
    Ok((check(&mut dom, node)?, check(&mut dom, node)?))
}

fn opened_twice(alloc: Global) -> Result<(bool, bool), NoMemory> {
    let (mut dom, node) = page_of(alloc, "p")?;
    Ok((open(alloc, &mut dom, node)?, open(alloc, &mut dom, node)?))
}

fn closed_twice(alloc: Global) -> Result<(bool, bool), NoMemory> {
    let (mut dom, node) = page_of(alloc, "p")?;
    open(alloc, &mut dom, node)?;
    Ok((close(&mut dom, node), close(&mut dom, node)))
}

/// What is told of moves with `, ` between, each of one of the texts of a page: the text `a`, an anchor and the text `b`, where the
/// texts have the serial numbers 1 and 2. A move is told as that of one number before another, and 0 is the end.
pub fn moves(alloc: Global, row: &str) -> Result<String, NoMemory> {
    let (mut dom, a, b) = two_texts(alloc)?;
    let mut told = String::new(alloc);
    for word in row.split(", ") {
        let change = moved(&mut dom, a, b, word);
        push_part(&mut told, ", ", change_told(alloc, &change)?.as_str())?;
    }
    Ok(told)
}

// What is told of a move. All that stood stands.
fn moved(dom: &mut Dom, a: Node, b: Node, word: &str) -> Option<Change>
    requires a { Has (is_child 0 a.0) dom.old.tokens }
    requires b { Has (is_child 0 b.0) dom.old.tokens }
    requires a_below { a.0 ≢ 0 }
    requires b_below { b.0 ≢ 0 }
    requires other { a.0 ≢ b.0 }
    ensures { (p : Token → Bool) → Has p dom.old.tokens → Has p dom.new.tokens }
{
    match word {
        "b before a" => dom.move_before(b, Some(a)),
        "a to the end" => dom.move_before(a, None),
        _ => dom.move_before(b, None),
    }
}

fn change_told(alloc: Global, change: &Option<Change>) -> Result<String, AllocError> {
    match change {
        Some(Change::Move { serial, before }) => format!(in alloc; "{serial} before {before}"),
        Some(_) => format!(in alloc; "another change"),
        None => format!(in alloc; "nothing"),
    }
}

// A page of the text `a`, an anchor and the text `b`, with both texts.
fn two_texts(alloc: Global) -> Result<(Dom, Node, Node), NoMemory>
    ensures a { IfOk result (λ made. Has (is_child 0 made.1.0) made.0.tokens) }
    ensures b { IfOk result (λ made. Has (is_child 0 made.2.0) made.0.tokens) }
    ensures a_below { IfOk result (λ made. made.1.0 ≢ 0) }
    ensures b_below { IfOk result (λ made. made.2.0 ≢ 0) }
    ensures other { IfOk result (λ made. made.1.0 ≢ made.2.0) }
{
    let mut dom = Dom::new(alloc)?;
    let a = push_text(alloc, &mut dom, "a")?;
    dom.make_anchor(dom.page(), None)?;
    let b = push_text(alloc, &mut dom, "b")?;
    Ok((dom, a, b))
}

/// Whether the element of an identifier is found, whether the removal of what encloses it is told, and whether it is found then.
pub fn removal(alloc: Global, id: &str) -> Result<String, NoMemory> {
    let (mut dom, outer, inner) = nested(alloc, id)?;
    let before = dom.find_id(id) == Some(inner);
    let told = removes(&mut dom, outer);
    let after = dom.find_id(id).is_some();
    Ok(format!(in alloc;
        "{} {} {}",
        yes_or_no(before),
        yes_or_no(told),
        yes_or_no(after)
    )?)
}

// A page of a `div`, with an element in it that has that identifier, and both elements.
fn nested(alloc: Global, id: &str) -> Result<(Dom, Node, Node), NoMemory>
    ensures stands { IfOk result (λ made. Has (opens made.1.0) made.0.tokens) }
    ensures below { IfOk result (λ made. made.1.0 ≢ 0) }
{
    let (mut dom, outer) = page_of(alloc, "div")?;
    let inner = add_element(alloc, &mut dom, outer, "p")?;
    identify(alloc, &mut dom, inner, id)?;
    Ok((dom, outer, inner))
}

// Gives an element an identifier, and says whether that is told. Each element stands as before.
fn identify(alloc: Global, dom: &mut Dom, node: Node, id: &str) -> Result<bool, NoMemory>
    requires stands { Has (opens node.0) dom.old.tokens }
    requires below { node.0 ≢ 0 }
    ensures { OnOk result ((key : ℕ) → Has (opens key) dom.old.tokens → Has (opens key) dom.new.tokens) }
{
    let id = Attr::Text(Text::new(alloc, id)?);
    give(alloc, dom, node, 3, "id", id)
}

fn removes(dom: &mut Dom, node: Node) -> bool
    requires stands { Has (opens node.0) dom.old.tokens }
    requires below { node.0 ≢ 0 }
{
    dom.remove(node).is_some()
}

/// Whether the element that was given an identifier is found by it, also where it is checked and has a number.
pub fn found_by_id(alloc: Global, id: &str) -> Result<String, NoMemory> {
    let (dom, node) = identified(alloc, id)?;
    Ok(String::from_str(alloc, yes_or_no(dom.find_id(id) == Some(node)))?)
}

// A page of a checked box that has that identifier, with the box.
fn identified(alloc: Global, id: &str) -> Result<(Dom, Node), NoMemory> {
    let (mut dom, node) = page_of(alloc, "p")?;
    check(&mut dom, node)?;
    identify(alloc, &mut dom, node, id)?;
    dom.number();
    Ok((dom, node))
}
