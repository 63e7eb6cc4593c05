// Which changes fit a page.
ghost use Rattle.std.specs.Prelude.{◌≡◌, ◌+◌, nat_le};
ghost use Rattle.std.specs.List.{list_any};
ghost use Rattle.sv_tokens.specs.Seen.{starts, is_child_of};
ghost use Rattle.sv_watch.specs.Page.{view_in};
ghost use Rattle.sv_watch.specs.Fits as spec;
ghost use Rattle.sv_watch.specs.Fits.{is_holder, is_input, is_words};

use crate::page::Page;
use crate::piece::Piece;
use sv_tokens::Change;

/// Whether the change names nodes that are on the page and are of the kind that it is for, and a place that is there.
pub fn fits(page: &Page, change: &Change) -> bool
    ensures { result ≡ spec.fits change.now (view_in page.now) }
{
    let pieces = &page.pieces;
    match change {
        Change::Make {
            serial,
            parent,
            before,
            ..
        } => is_later(page.last, *serial) && has_place(pieces, *parent, *before),
        Change::SetText { serial, .. } => *serial != 0 && has_words(pieces, *serial),
        Change::SetAttr { serial, .. } => *serial != 0 && has_holder(pieces, *serial),
        Change::DropAttr { serial, slot } => *serial != 0 && has_slot(pieces, *serial, *slot),
        Change::SetTyped { serial, .. } => *serial != 0 && has_input(pieces, *serial),
        Change::Move { serial, before } => *serial != 0 && has_beside(pieces, *serial, *before),
        Change::Remove { serial } => *serial != 0 && has_node(pieces, *serial),
    }
}

// Whether a serial number is above the last one.
fn is_later(last: u64, serial: u64) -> bool
    ensures { result ≡ nat_le (last + 1) serial }
{
    if serial <= last {
        return false;
    }
    true
}

fn has_place(pieces: &[Piece], parent: u64, before: u64) -> bool
    ensures { result ≡ spec.has_place parent before pieces.now }
{
    has_holder(pieces, parent) && (before == 0 || has_child(pieces, parent, before))
}

fn has_holder(pieces: &[Piece], serial: u64) -> bool
    ensures { result ≡ list_any (is_holder serial) pieces.now }
{
    pieces.iter().any(|piece| piece.is_holder(serial))
}

fn has_child(pieces: &[Piece], parent: u64, node: u64) -> bool
    ensures { result ≡ list_any (is_child_of parent node) pieces.now }
{
    pieces.iter().any(|piece| piece.is_child_of(parent, node))
}

fn has_words(pieces: &[Piece], serial: u64) -> bool
    ensures { result ≡ list_any (is_words serial) pieces.now }
{
    pieces.iter().any(|piece| piece.is_words(serial))
}

fn has_slot(pieces: &[Piece], serial: u64, slot: u16) -> bool
    ensures { result ≡ list_any (spec.has_slot serial slot) pieces.now }
{
    pieces.iter().any(|piece| piece.has_slot(serial, slot))
}

fn has_input(pieces: &[Piece], serial: u64) -> bool
    ensures { result ≡ list_any (is_input serial) pieces.now }
{
    pieces.iter().any(|piece| piece.is_input(serial))
}

fn has_beside(pieces: &[Piece], serial: u64, before: u64) -> bool
    ensures { result ≡ list_any (spec.is_beside serial before pieces.now) pieces.now }
{
    pieces
        .iter()
        .any(|piece| is_beside(pieces, piece, serial, before))
}

// Whether the token begins that node, and its parent has that other child or, for 0, an end.
fn is_beside(pieces: &[Piece], piece: &Piece, serial: u64, before: u64) -> bool
    ensures { result ≡ spec.is_beside serial before pieces.now piece.now }
{
    piece.starts(serial)
        && (before == 0 || (before != serial && has_child(pieces, piece.parent(), before)))
}

fn has_node(pieces: &[Piece], serial: u64) -> bool
    ensures { result ≡ list_any (starts serial) pieces.now }
{
    pieces.iter().any(|piece| piece.starts(serial))
}
