// The parameters of the rules, and the nodes by what they begin with.
ghost use Rattle.std.specs.Prelude.{◌≡◌, ◌≤◌, length, OnOk};
ghost use Rattle.sv_expr.specs.Limits.{real};
ghost use Rattle.sv_lex.specs.Reader.{Reads};
ghost use Rattle.sv_markup.specs.Below.{Nests};
ghost use Rattle.sv_markup.specs.Nodes.{with_node};
ghost use Rattle.sv_markup.specs.Pieces.{least_of, least_len};
ghost use Rattle.sv_markup.specs.Rules as spec;
ghost use Rattle.sv_markup.specs.Rules.{inside};

use crate::leaves::{show, words};
use crate::pieces::{Form, Piece, piece_at};
use std::alloc::Global;
use sv_ast::{Kind, Markup, Nodes, ParseError};
use sv_base::NoMemory;
use sv_lex::Source;
use sv_list::Items;
use sv_tags::comment;

/// Puts a node behind those that were found, if there is one.
pub(crate) fn add(found: &mut Nodes, node: Option<Markup>) -> Result<(), NoMemory>
    ensures { OnOk result (found.new ≡ with_node node found.old) }
{
    match node {
        Some(node) => found.push(node),
        None => Ok(()),
    }
}

/// The rules of markup. Each reads from `source` what its line of the grammar says.
#[derive(Drop)]
pub struct Rules<F> {
    pub alloc: Global,
    /// How many constructs may be opened.
    pub room: usize,
    /// Reads the nodes in a construct, where so many may be opened, that one included. It is told whether a component owns
    /// them.
    pub inside: F,
}

impl<F: Fn(Global, &mut Source<'_>, usize, bool) -> Result<Nodes, ParseError>> Rules<F> {
    // The nodes in a construct.
    pub(crate) fn enclosed(&self, source: &mut Source<'_>, owned: bool) -> Result<Nodes, ParseError>
        requires nests { Nests self.now.room (F.pre self.now.inside) (F.post self.now.inside) }
        requires room { 1 ≤ self.now.room }
        ensures { Reads (inside real self.now.room owned source.old) result source.new }
    {
        (self.inside)(self.alloc, source, self.room, owned)
    }

    // A node of this form.
    #[tactic(auto, unfolding(crate::specs::Rules::node))]
    fn node(&self, source: &mut Source<'_>, owned: bool, form: Form) -> Result<Markup, ParseError>
        requires nests { Nests self.now.room (F.pre self.now.inside) (F.post self.now.inside) }
        requires front { least_of form ≤ length source.old.text }
        ensures { Reads (spec.node real self.now.room (inside real self.now.room) owned form source.old) result source.new }
    {
        match form {
            Form::Text => words(self.alloc, source),
            Form::Hole => show(self.alloc, source, self.room),
            Form::Element => self.element(source, owned),
            Form::Component => self.component(source, owned),
            Form::Slot => self.slot(source, owned),
            Form::If => self.if_block(source),
            Form::Each => self.each_block(source),
            Form::Key => self.key_block(source),
        }
    }

    /// What begins so: a node, or a comment, which is none. `OutOfScope` and `Syntax` come where it begins.
    #[tactic(auto, unfolding(crate::specs::Rules::piece))]
    pub(crate) fn piece(
        &self,
        source: &mut Source<'_>,
        owned: bool,
        piece: Piece,
    ) -> Result<Option<Markup>, ParseError>
        requires nests { Nests self.now.room (F.pre self.now.inside) (F.post self.now.inside) }
        requires front { least_len piece ≤ length source.old.text }
        ensures { Reads (spec.piece real self.now.room (inside real self.now.room) owned piece source.old) result source.new }
    {
        match piece {
            Piece::Comment => {
                comment(source)?;
                Ok(None)
            }
            Piece::Node(form) => Ok(Some(self.node(source, owned, form)?)),
            Piece::Script | Piece::Style | Piece::LeftOut => Err(source.stop(Kind::OutOfScope)),
            Piece::End | Piece::Unread => Err(source.stop(Kind::Syntax)),
        }
    }

    /// The nodes up to an end.
    pub(crate) fn nodes(&self, source: &mut Source<'_>, owned: bool) -> Result<Nodes, ParseError>
        requires { Nests self.now.room (F.pre self.now.inside) (F.post self.now.inside) }
        ensures { Reads (spec.nodes real self.now.room (inside real self.now.room) owned source.old) result source.new }
    {
        let mut found = Items::new(self.alloc);
        for _turn in 0..source.left() {
            let piece = piece_at(source.text());
            if piece.is_end() {
                return Ok(found);
            }
            let node = self.piece(source, owned, piece)?;
            add(&mut found, node)?;
        }
        if piece_at(source.text()).is_end() {
            Ok(found)
        } else {
            Err(source.stop(Kind::Syntax))
        }
    }
}
