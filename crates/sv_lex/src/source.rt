// A cursor over the bytes of a text.
ghost use Rattle.std.specs.Prelude.{◌≡◌, ◌≤◌, ◌<◌, ◌+◌, ◌++◌, [], length};
ghost use Rattle.sv_base.specs.Names.{IsTable};
ghost use Rattle.sv_lex.specs.Bytes as spec;
ghost use Rattle.sv_lex.specs.Literals.{moved};
ghost use Rattle.sv_lex.specs.Reader as reader;
ghost use Rattle.sv_lex.specs.Reader.{Reads};

use crate::cursor::Tokens;
use crate::naming::intern;
use std::alloc::Global;
use std::marker::Model;
use std::mem;
use sv_ast::{Kind, ParseError, Refused};
use sv_base::{Name, Names, Span, TEXT_LIMIT};

/// A cursor over the bytes of a text, for what isn't made of tokens, as markup. It turns into `Tokens` and back where
/// tokens stand between. It owns the names that it adds to those that it was lent. A clause sees it as the `Input` of a
/// parser: the text from the place on, that place in the file, the file, and all names.
#[derive(Drop)]
pub struct Source<'a> {
    pub(crate) alloc: Global,
    pub(crate) known: &'a Names,
    pub(crate) added: Names,
    pub(crate) file: u16,
    pub(crate) text: &'a [u8],
    // Where `text` begins.
    pub(crate) at: u32,
}

impl<'a> Model for Source<'a> {
    ghost use Rattle.sv_lex.specs.Reader.{Input, input_code};

    ghost Value = { Input };

    ghost coded = { input_code };

    ghost use Rattle.sv_lex.specs.Bytes.{source_of, IsSound};

    ghost view = { source_of };

    ghost invariant = { IsSound };
}

impl<'a> Source<'a> {
    /// A cursor at the front of `text`, which begins at `at` of the file.
    pub fn new(alloc: Global, known: &'a Names, file: u16, text: &'a [u8], at: u32) -> Source<'a>
        requires { at + length text.now < TEXT_LIMIT }
        ensures { result ≡ record { text = text.now; at = at; file = file; known = known.now; added = [] } }
    {
        let _count = known.len();
        Source {
            alloc,
            known,
            added: Names::empty(alloc),
            file,
            text,
            at,
        }
    }

    /// The text from the place on.
    pub fn text(&self) -> &'a [u8]
        ensures { result.now ≡ self.now.text }
    {
        self.text
    }

    /// The place in the file. It and each place behind it fit.
    pub fn at(&self) -> u32
        ensures value { result ≡ self.now.at }
        ensures fits { result + length self.now.text < TEXT_LIMIT }
    {
        self.at
    }

    /// How many bytes are left.
    #[tactic(auto, unfolding(crate::specs::Reader::left))]
    pub fn left(&self) -> usize
        ensures { result ≡ reader.left self.now }
    {
        self.text.len()
    }

    /// The bytes of a form that begins at `from` and ends here.
    pub fn span_from(&self, from: u32) -> Span
        ensures { result ≡ reader.span_from from self.now }
    {
        Span {
            file: self.file,
            from,
            to: self.at,
        }
    }

    /// A refusal at a place of the file, with no bytes.
    pub fn stop_at(&self, kind: Kind, from: u32) -> ParseError
        ensures { result ≡ ParseError.Refused (spec.stopped_at kind from self.now) }
    {
        ParseError::Refused(Refused {
            kind,
            at: Span {
                file: self.file,
                from,
                to: from,
            },
        })
    }

    /// A refusal here, with no bytes.
    pub fn stop(&self, kind: Kind) -> ParseError
        ensures { result ≡ ParseError.Refused (spec.stopped_at kind self.now.at self.now) }
    {
        self.stop_at(kind, self.at)
    }

    /// Goes on by so many bytes.
    pub fn pass(&mut self, len: usize)
        requires { len ≤ length self.old.text }
        ensures { self.new ≡ moved len self.old }
    {
        self.text = &self.text[len..];
        self.at += len as u32;
    }

    /// Stands at the front of another text of the file, which begins at `at`.
    pub fn go_to(&mut self, text: &'a [u8], at: u32)
        requires { at + length text.now < TEXT_LIMIT }
        ensures { self.new ≡ spec.standing_at text.now at self.old }
    {
        self.text = text;
        self.at = at;
    }

    /// The number of a name, which it gets where it has none.
    pub fn intern(&mut self, text: &str) -> Result<Name, ParseError>
        ensures { Reads (spec.numbered text.now self.old) result self.new }
    {
        Ok(intern(self.known, &mut self.added, text)?)
    }

    /// A cursor over the tokens that begin here. It takes the names with it; what is left behind is an empty text.
    pub fn tokens(&mut self) -> Tokens<'a>
        ensures { result ≡ self.old }
    {
        let nothing = Source::new(self.alloc, self.known, self.file, &[], 0);
        Tokens::from_source(mem::replace(self, nothing))
    }

    /// The names that were added to those that it was lent, with which they are a table.
    pub fn into_added(self) -> Names
        ensures value { result ≡ self.entry.added }
        ensures table { IsTable (self.entry.known ++ result) }
    {
        let Source { added, .. } = self;
        added
    }
}
