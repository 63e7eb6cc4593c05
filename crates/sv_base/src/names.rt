// Texts by number.
ghost use Rattle.std.specs.Prelude.{◌≡◌, ℕ, ◌≤◌, ◌↔◌, ◌++◌, [], length, take, map, slice_get, IsNone, IfOk, OnOk, OnErr, IfSome};
ghost use Rattle.std.specs.List.{list_any};
ghost use Rattle.std.specs.Str.{bytes_eq};
ghost use Rattle.sv_base.specs.Names as spec;
ghost use Rattle.sv_base.specs.Names.{number_of, with_text, IsTable};

use crate::NoMemory;
use crate::limits::NAME_LIMIT;
use indexmap::IndexSet;
use std::alloc::Global;
use std::marker::Model;

/// The number of a text in a table of names.
#[derive(Clone, Copy, Debug, PartialEq, Eq, PartialOrd, Ord, Hash)]
pub struct Name(pub u32);

/// A table that numbers texts from 0, in the order in which they are first seen. A clause sees it as the list of its
/// texts in UTF-8, so that a text stands at its number.
#[derive(Drop)]
pub struct Names {
    alloc: Global,
    texts: IndexSet<String>,
}

impl Model for Names {
    ghost use Rattle.std.specs.Prelude.{List, ℕ, map};
    ghost use Rattle.std.specs.String.{string_bytes};
    ghost use Rattle.sv_base.specs.Names.{IsTable};

    ghost Value = { List (List ℕ) };

    ghost view = { λ n. map string_bytes n.texts.keys };

    ghost invariant = { λ n. IsTable (map string_bytes n.texts.keys) };
}

impl Names {
    /// A table of no names, with room for the first ones.
    pub fn new(alloc: Global) -> Result<Names, NoMemory>
        ensures { IfOk result (λ names. names ≡ []) }
    {
        let texts = IndexSet::with_capacity(alloc, 64)?;
        Ok(Names { alloc, texts })
    }

    /// A table of no names and no room.
    pub fn empty(alloc: Global) -> Names
        ensures { result ≡ [] }
    {
        Names {
            alloc,
            texts: IndexSet::new(alloc),
        }
    }

    /// The name of `text`: the one that it has, or the next number. A full table answers `NoMemory` for a new text.
    pub fn intern(&mut self, text: &str) -> Result<Name, NoMemory>
        ensures number { IfOk result (λ name. name.0 ≡ number_of text.now self.old) }
        ensures table { OnOk result (self.new ≡ with_text text.now self.old) }
        // One to one: the text stands at its number, and nowhere else.
        ensures known { IfOk result (λ name. slice_get self.new name.0 ≡ Some text.now) }
        ensures only { IfOk result (λ name. (other : ℕ) → slice_get self.new other ≡ Some text.now → other ≡ name.0) }
        ensures err { OnErr result (self.new ≡ self.old) }
    {
        if let Some(at) = self.texts.get_index_of(text) {
            return Ok(Name(at as u32));
        }
        if self.texts.len() == NAME_LIMIT {
            return Err(NoMemory);
        }
        let owned = String::from_str(self.alloc, text)?;
        let (at, _) = self.texts.insert_full(owned)?;
        Ok(Name(at as u32))
    }

    /// The name of `text`, or `None` exactly where it has none.
    pub fn find(&self, text: &str) -> Option<Name>
        ensures number { IfSome result (λ name. name.0 ≡ number_of text.now self.now) }
        ensures known { IfSome result (λ name. slice_get self.now name.0 ≡ Some text.now) }
        ensures none { IsNone result ↔ (number_of text.now self.now ≡ length self.now) }
    {
        match self.texts.get_index_of(text) {
            Some(at) => Some(Name(at as u32)),
            None => None,
        }
    }

    /// How many names there are.
    pub fn len(&self) -> u32
        ensures count { result ≡ length self.now }
        ensures table { IsTable self.now }
    {
        self.texts.len() as u32
    }

    /// Adds the names of `more` behind its own, with which they are still a table. Where memory runs out, some may have been
    /// added.
    pub fn append(&mut self, more: &Names) -> Result<(), NoMemory>
        requires { IsTable (self.old ++ more.now) }
        ensures ok { OnOk result (self.new ≡ self.old ++ more.now) }
        ensures err { OnErr result (take (length self.old) self.new ≡ self.old) }
    {
        for number in 0..more.len() {
            if let Some(text) = more.text(Name(number)) {
                self.intern(text)?;
            }
        }
        Ok(())
    }

    /// A table of the same names.
    pub fn copy(&self) -> Result<Names, NoMemory>
        ensures { IfOk result (λ copy. copy ≡ self.now) }
    {
        let mut copy = Names::empty(self.alloc);
        copy.append(self)?;
        Ok(copy)
    }

    /// The text of a name, or `None` exactly where its number is not given out.
    pub fn text(&self, name: Name) -> Option<&str>
        ensures text { IfSome result (λ text. slice_get self.now name.0 ≡ Some text.now) }
        ensures none { IsNone result ↔ (length self.now ≤ name.0) }
    {
        let text = self.texts.get_index(name.0 as usize)?;
        Some(text.as_str())
    }

    /// Whether a name has this text.
    pub fn is_text(&self, name: Name, text: &str) -> bool
        ensures { result ≡ spec.is_text self.now text.now name }
    {
        match self.text(name) {
            Some(found) => found == text,
            None => false,
        }
    }

    /// Whether a name has one of these texts.
    pub fn is_one_of(&self, name: Name, texts: &[&str]) -> bool
        ensures { result ≡ spec.is_one_of self.now (map (λ text. text.now) texts.now) name }
    {
        match self.text(name) {
            Some(found) => is_among(found, texts),
            None => false,
        }
    }
}

fn is_among(text: &str, texts: &[&str]) -> bool
    ensures { result ≡ list_any (bytes_eq text.now) (map (λ other. other.now) texts.now) }
{
    for other in texts {
        if text == *other {
            return true;
        }
    }
    false
}
