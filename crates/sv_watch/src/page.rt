// A page that is rebuilt from its changes.
ghost use Rattle.std.specs.Prelude.{◌≡◌, ◌≤◌, ◌<◌, ◌+◌, ◌++◌, ◌∷◌, List, IfOk, IfSome, OnOk, OnErr, length, take, drop};
ghost use Rattle.std.specs.List.{position_or_len};
ghost use Rattle.sv_tokens.specs.Counting.{times};
ghost use Rattle.sv_tokens.specs.Seen.{Seen, starts, ends, follows, IsNumbered};
ghost use Rattle.sv_tokens.specs.Edit.{with_attribute, without_slot, with_typed};
ghost use Rattle.sv_tokens.specs.Replay.{made, through, rest_of, replay, with_words, with_start};
ghost use Rattle.sv_tokens.specs.declared.change.Change.TheVariants.{Make};
ghost use Rattle.sv_watch.specs.Page.{view_in};
ghost use Rattle.sv_watch.specs.Mirror.{blank, page_html};
ghost use Rattle.sv_watch.specs.Place.{place_of, rewritten, removed, shifted};

use crate::copy::typed_of;
use crate::piece::Piece;
use std::alloc::Global;
use sv_base::{NoMemory, Text};
use sv_tokens::{Attr, Attribute, Change, Typed, What};

/// The tokens of a page in document order, and the greatest serial number that a node on it had, 0 before the first.
#[derive(Drop)]
pub struct Page {
    pub alloc: Global,
    pub pieces: Vec<Piece>,
    pub last: u64,
}

/// The page with nothing on it.
pub fn empty_page(alloc: Global) -> Result<Page, NoMemory>
    ensures { IfOk result (λ page. view_in page ≡ blank) }
{
    let mut pieces = Vec::new(alloc);
    pieces.push(Piece::start(alloc, 0, 0, Text::new(alloc, "")?))?;
    pieces.push(Piece::end(0, Text::new(alloc, "")?))?;
    Ok(Page {
        alloc,
        pieces,
        last: 0,
    })
}

/// Brings a change to the page. A page that finds no memory stays as it was.
pub fn apply(page: &mut Page, change: &Change) -> Result<(), NoMemory>
    requires { IsNumbered (view_in page.old).tokens (view_in page.old).next }
    ensures ok { OnOk result (view_in page.new ≡ replay change.now (view_in page.old)) }
    ensures err { OnErr result (view_in page.new ≡ view_in page.old) }
{
    match change {
        Change::Make {
            serial,
            parent,
            before,
            what,
        } => make(page, *serial, *parent, *before, what),
        Change::SetText { serial, text } => set_words(&mut page.pieces, *serial, text),
        Change::SetAttr {
            serial,
            slot,
            name,
            attr,
        } => set_attribute(&mut page.pieces, *serial, *slot, name, attr),
        Change::DropAttr { serial, slot } => {
            take_attribute(&mut page.pieces, *serial, *slot);
            Ok(())
        }
        Change::SetTyped { serial, typed } => set_typed(&mut page.pieces, *serial, typed),
        Change::Move { serial, before } => {
            shift(&mut page.pieces, *serial, *before);
            Ok(())
        }
        Change::Remove { serial } => {
            remove(&mut page.pieces, *serial);
            Ok(())
        }
    }
}

// A new node comes, where its serial number is a new one and there is such a place.
fn make(page: &mut Page, serial: u64, parent: u64, before: u64, what: &What) -> Result<(), NoMemory>
    ensures ok { OnOk result (view_in page.new ≡ replay (Make serial parent before what.now) (view_in page.old)) }
    ensures err { OnErr result (view_in page.new ≡ view_in page.old) }
{
    if serial <= page.last {
        return Ok(());
    }
    let at = place_behind(&page.pieces, parent, before);
    if at == page.pieces.len() {
        return Ok(());
    }
    insert(page.alloc, &mut page.pieces, at, serial, parent, what)?;
    page.last = serial;
    Ok(())
}

// Puts the tokens of a new node at a place.
fn insert(
    alloc: Global,
    pieces: &mut Vec<Piece>,
    at: usize,
    serial: u64,
    parent: u64,
    what: &What,
) -> Result<(), NoMemory>
    requires { at ≤ length pieces.old.items }
    ensures ok { OnOk result (pieces.new.items ≡ take at pieces.old.items ++ (made serial parent what.now ++ drop at pieces.old.items)) }
    ensures err { OnErr result (pieces.new.items ≡ pieces.old.items) }
{
    match what {
        What::Text(text) => {
            let words = Piece::words(serial, parent, text.share()?);
            pieces.insert(at, words)?;
        }
        What::Element(name) => {
            let start = Piece::start(alloc, serial, parent, name.share()?);
            let end = Piece::end(serial, name.share()?);
            pieces.reserve(2)?;
            pieces.insert(at, end)?;
            pieces.insert(at, start)?;
        }
    }
    Ok(())
}

// Gives a text other words.
fn set_words(pieces: &mut Vec<Piece>, serial: u64, text: &Text) -> Result<(), NoMemory>
    requires { times (starts serial) pieces.old.items ≤ 1 }
    ensures ok { OnOk result (pieces.new.items ≡ rewritten serial (with_words text.now) pieces.old.items) }
    ensures err { OnErr result (pieces.new.items ≡ pieces.old.items) }
{
    let words = text.share()?;
    match node_at(pieces, serial) {
        Some(at) => pieces[at].set_words(words),
        None => drop(words),
    }
    Ok(())
}

// Gives an element an attribute, in the place of the one at its slot.
fn set_attribute(
    pieces: &mut Vec<Piece>,
    serial: u64,
    slot: u16,
    name: &Text,
    value: &Attr,
) -> Result<(), NoMemory>
    requires { times (starts serial) pieces.old.items ≤ 1 }
    ensures ok { OnOk result (pieces.new.items ≡ rewritten serial (with_start (with_attribute (record { slot = slot; name = name.now; value = value.now }))) pieces.old.items) }
    ensures err { OnErr result (pieces.new.items ≡ pieces.old.items) }
{
    let Some(at) = node_at(pieces, serial) else {
        return Ok(());
    };
    let attribute = attribute_of(slot, name, value)?;
    pieces[at].set_attribute(attribute)
}

// An attribute whose texts are shared.
fn attribute_of(slot: u16, name: &Text, value: &Attr) -> Result<Attribute, NoMemory>
    ensures { IfOk result (λ made. made ≡ record { slot = slot; name = name.now; value = value.now }) }
{
    let name = name.share()?;
    let value = value.share()?;
    Ok(Attribute { slot, name, value })
}

// Takes the attribute at a slot from an element.
fn take_attribute(pieces: &mut Vec<Piece>, serial: u64, slot: u16)
    requires { times (starts serial) pieces.old.items ≤ 1 }
    ensures { pieces.new.items ≡ rewritten serial (with_start (without_slot slot)) pieces.old.items }
{
    if let Some(at) = node_at(pieces, serial) {
        pieces[at].drop_attribute(slot);
    }
}

// Lays what was typed over an element, or takes it away.
fn set_typed(pieces: &mut Vec<Piece>, serial: u64, typed: &Option<Typed>) -> Result<(), NoMemory>
    requires { times (starts serial) pieces.old.items ≤ 1 }
    ensures ok { OnOk result (pieces.new.items ≡ rewritten serial (with_start (with_typed typed.now)) pieces.old.items) }
    ensures err { OnErr result (pieces.new.items ≡ pieces.old.items) }
{
    let typed = typed_of(typed)?;
    match node_at(pieces, serial) {
        Some(at) => pieces[at].set_typed(typed),
        None => drop(typed),
    }
    Ok(())
}

// Takes a node away, with all below it.
fn remove(pieces: &mut Vec<Piece>, serial: u64)
    ensures { pieces.new.items ≡ removed serial pieces.old.items }
{
    let Some(at) = node_at(pieces, serial) else {
        return;
    };
    let count = span_at(pieces, at);
    let rest = pieces.len() - count;
    turn_left(pieces, at, count);
    pieces.truncate(rest);
}

// Puts a node before that sibling, or at its parent's end, where there is such a place.
fn shift(pieces: &mut [Piece], serial: u64, before: u64)
    ensures moved { pieces.new ≡ shifted serial before pieces.old }
    ensures len { length pieces.new ≡ length pieces.old }
{
    let Some(at) = node_at(pieces, serial) else {
        return;
    };
    let parent = pieces[at].parent();
    let count = span_at(pieces, at);
    turn_left(pieces, at, count);
    let rest = pieces.len() - count;
    let place = place_behind(&pieces[..rest], parent, before);
    let to = if place < rest { place } else { at };
    turn_right(pieces, to, count);
}

// Brings so many tokens from there to the end.
fn turn_left(pieces: &mut [Piece], at: usize, count: usize)
    requires { at + count ≤ length pieces.old }
    ensures turned { (front own back : List Seen) → pieces.old ≡ front ++ (own ++ back) → length front ≡ at → length own ≡ count → pieces.new ≡ front ++ (back ++ own) }
    ensures len { length pieces.new ≡ length pieces.old }
{
    pieces[at..].rotate_left(count);
}

// Brings so many tokens from the end to there.
fn turn_right(pieces: &mut [Piece], at: usize, count: usize)
    requires { at + count ≤ length pieces.old }
    ensures turned { (front own back : List Seen) → pieces.old ≡ front ++ (back ++ own) → length front ≡ at → length own ≡ count → pieces.new ≡ front ++ (own ++ back) }
    ensures len { length pieces.new ≡ length pieces.old }
{
    pieces[at..].rotate_right(count);
}

// Where the node begins, if it is on the page. The page itself is not.
fn node_at(pieces: &[Piece], serial: u64) -> Option<usize>
    ensures place { result ≡ place_of serial pieces.now }
    ensures bound { IfSome result (λ at. at < length pieces.now) }
{
    if serial == 0 {
        return None;
    }
    let at = starting(pieces, serial);
    if at < pieces.len() {
        return Some(at);
    }
    None
}

// Where the first token stands that begins the node. Their number, where none does.
fn starting(pieces: &[Piece], serial: u64) -> usize
    ensures count { result ≡ position_or_len (starts serial) pieces.now }
    ensures bound { result ≤ length pieces.now }
{
    pieces
        .iter()
        .take_while(|piece| !piece.starts(serial))
        .count()
}

// Where the first token stands that ends the element. Their number, where none does.
fn ending(pieces: &[Piece], serial: u64) -> usize
    ensures count { result ≡ position_or_len (ends serial) pieces.now }
    ensures bound { result ≤ length pieces.now }
{
    pieces
        .iter()
        .take_while(|piece| !piece.ends(serial))
        .count()
}

// Where the token stands that follows a place: before that child of the parent, or at its end where `before` is 0. Their
// number, where there is no such place.
fn place_behind(pieces: &[Piece], parent: u64, before: u64) -> usize
    ensures count { result ≡ position_or_len (follows parent before) pieces.now }
    ensures bound { result ≤ length pieces.now }
{
    pieces
        .iter()
        .take_while(|piece| !piece.follows(parent, before))
        .count()
}

// How many tokens the node has that begins there, with all below it.
fn span_at(pieces: &[Piece], at: usize) -> usize
    requires { at < length pieces.now }
    ensures some { 1 ≤ result }
    ensures bound { at + result ≤ length pieces.now }
    ensures count { (front back : List Seen) (t : Seen) → pieces.now ≡ front ++ t ∷ back → length front ≡ at → result ≡ 1 + length (rest_of t back) }
{
    match pieces[at].element() {
        Some(serial) => 1 + through_end(&pieces[at + 1..], serial),
        None => 1,
    }
}

// How many tokens there are up to the end of the element, with it.
fn through_end(pieces: &[Piece], serial: u64) -> usize
    ensures count { result ≡ length (through (ends serial) pieces.now) }
    ensures bound { result ≤ length pieces.now }
{
    let inside = ending(pieces, serial);
    if inside < pieces.len() {
        return inside + 1;
    }
    inside
}

/// Puts the text of the page behind `out`.
pub fn print(alloc: Global, pieces: &[Piece], out: &mut Vec<u8>) -> Result<(), NoMemory>
    ensures { OnOk result (out.new.items ≡ out.old.items ++ page_html pieces.now) }
{
    for piece in pieces {
        piece.print(alloc, out)?;
    }
    Ok(())
}
