// What the top of a file has.
ghost use Rattle.std.specs.Prelude.{◌≡◌, [], IfOk, OnOk};
ghost use Rattle.sv_lower.specs.Places as places;
ghost use Rattle.sv_lower.specs.Tops as spec;
ghost use Rattle.sv_lower.specs.Words.{words as spec_words};

use crate::members::{Word, method_of, words};
use crate::places::{place, width};
use indexmap::IndexMap;
use std::alloc::Global;
use std::marker::Model;
use sv_ast::Ref;
use sv_base::{Name, Names, NoMemory, Span};
use sv_code::{Known, Property};
use sv_list::Items;

/// The texts of all names, what names stand for at the top of a file, and what words mean behind a point. A clause sees it as the list of
/// each.
#[derive(Drop)]
pub struct TopNames<'a> {
    names: &'a Names,
    known: IndexMap<Ref, Known>,
    words: Items<Word>,
}

impl<'a> Model for TopNames<'a> {
    ghost use Rattle.sv_lower.specs.Tops.{Tops};

    ghost Value = { Tops };

    ghost view = { λ t. record { names = t.names.now; known = t.known.entries; words = t.words } };
}

impl<'a> TopNames<'a> {
    /// No names, in a program of which these are all names. `NoMemory` comes only where memory runs out.
    pub fn new(alloc: Global, names: &'a Names) -> Result<TopNames<'a>, NoMemory>
        ensures { IfOk result (λ tops. tops ≡ record { names = names.now; known = []; words = spec_words names.now }) }
    {
        Ok(TopNames {
            names,
            known: IndexMap::new(alloc),
            words: words(alloc, names)?,
        })
    }

    /// A name stands for this, unless it stands for something already.
    pub fn add(&mut self, name: Ref, known: Known) -> Result<(), NoMemory>
        ensures { OnOk result (self.new ≡ record self.old { known = spec.with_known self.old.known (name, known) }) }
    {
        if !self.known.contains_key(&name) {
            self.known.insert(name, known)?;
        }
        Ok(())
    }

    /// What a name stands for, if it stands for something.
    #[tactic(auto, using(crate::proofs::Naming::lookup_known))]
    pub fn get(&self, name: Ref) -> Option<Known>
        ensures { result ≡ spec.known_in self.now.known name }
    {
        self.known.get(&name).copied()
    }

    /// The place of a name that an expression at `span` assigns.
    pub(crate) fn place(&self, at_end: bool, name: Ref, span: Span) -> Span
        ensures { result ≡ places.place at_end (places.width self.now.names name) span }
    {
        place(at_end, width(self.names, name), span)
    }

    /// What a word means behind a point.
    pub(crate) fn property(&self, name: Name) -> Property
        ensures { result ≡ spec.property self.now name }
    {
        Property {
            name,
            method: method_of(self.words.as_slice(), name),
        }
    }
}
