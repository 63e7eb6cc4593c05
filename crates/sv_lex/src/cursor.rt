// A cursor over the tokens of a text.
ghost use Rattle.std.specs.Prelude.{◌≡◌, ◌≤◌, ◌<◌, ◌+◌, ◌++◌, [], length, IfOk, OnOk};
ghost use Rattle.sv_base.specs.Names.{IsTable};
ghost use Rattle.sv_lex.specs.Bytes.{Closes};
ghost use Rattle.sv_lex.specs.Literals as literals;
ghost use Rattle.sv_lex.specs.Reader as spec;
ghost use Rattle.sv_lex.specs.Reader.{Reads};

use crate::contents::{end_len, text_of};
use crate::digits::{Base, number};
use crate::front::{behind_first, byte};
use crate::lexeme::Lexeme;
use crate::look::{has_line_end, same_lexeme, skip};
use crate::naming::{intern, is_text_of, name_text};
use crate::pieces::{Piece, rest};
use crate::source::Source;
use crate::strings::Quote;
use crate::token::{Token, token};
use std::alloc::Global;
use std::marker::Model;
use sv_ast::{Kind, Named, ParseError, Refused};
use sv_base::{Name, Names, NoMemory, Num, Span, TEXT_LIMIT, Text};

/// The greatest number that a numeral may write.
pub const NUMERAL_LIMIT: u64 = 9_007_199_254_740_991;

/// A literal run of a template, with its place.
#[derive(Drop)]
pub struct Run {
    pub text: Text,
    pub span: Span,
}

/// A cursor over the tokens of a text, which cuts each as it is reached. It owns the names that it adds to those that
/// it was lent. A clause sees it as the `Input` of a parser: the text behind the last token, its place in the file, the
/// file, and all names.
#[derive(Drop)]
pub struct Tokens<'a> {
    alloc: Global,
    known: &'a Names,
    added: Names,
    file: u16,
    text: &'a [u8],
    // Where `text` begins.
    at: u32,
    // The text from the next token on, and that token.
    ahead: &'a [u8],
    token: Token,
}

impl<'a> Model for Tokens<'a> {
    ghost use Rattle.sv_lex.specs.Reader.{Input, input_code};

    ghost Value = { Input };

    ghost coded = { input_code };

    ghost use Rattle.sv_lex.specs.Cursor.{input_of, IsReady};

    ghost view = { input_of };

    ghost invariant = { IsReady };
}

impl<'a> Tokens<'a> {
    /// A cursor at the front of `text`, which begins at `at` of the file.
    pub fn new(alloc: Global, known: &'a Names, file: u16, text: &'a [u8], at: u32) -> Tokens<'a>
        requires { at + length text.now < TEXT_LIMIT }
        ensures { result ≡ record { text = text.now; at = at; file = file; known = known.now; added = [] } }
    {
        let _count = known.len();
        let ahead = skip(text);
        Tokens {
            alloc,
            known,
            added: Names::empty(alloc),
            file,
            text,
            at,
            ahead,
            token: token(ahead),
        }
    }

    /// A cursor over the tokens that begin where `source` stands.
    pub fn from_source(source: Source<'a>) -> Tokens<'a>
        ensures { result ≡ source.entry }
    {
        let Source {
            alloc,
            known,
            added,
            file,
            text,
            at,
        } = source;
        let ahead = skip(text);
        Tokens {
            alloc,
            known,
            added,
            file,
            text,
            at,
            ahead,
            token: token(ahead),
        }
    }

    /// A cursor over the bytes directly behind the last token.
    pub fn into_source(self) -> Source<'a>
        ensures { result ≡ self.entry }
    {
        let Tokens {
            alloc,
            known,
            added,
            file,
            text,
            at,
            ..
        } = self;
        Source {
            alloc,
            known,
            added,
            file,
            text,
            at,
        }
    }

    /// Takes the next token, which has to be of this kind, and goes on with the bytes directly behind it, at which it
    /// doesn't look. Another token is refused.
    #[tactic(auto, unfolding(crate::specs::Reader::expect, crate::specs::Reader::next, crate::specs::Reader::start, crate::specs::Reader::len, crate::specs::Look::first_len, crate::specs::Look::past))]
    pub fn close(self, lexeme: Lexeme) -> Result<Source<'a>, ParseError>
        ensures { Closes (spec.expect lexeme self.entry) result }
    {
        if !self.sees(lexeme) {
            return Err(self.refuse(Kind::Syntax));
        }
        let at = self.start() + self.token.1 as u32;
        let Tokens {
            alloc,
            known,
            added,
            file,
            ahead,
            token,
            ..
        } = self;
        Ok(Source {
            alloc,
            known,
            added,
            file,
            text: &ahead[token.1..],
            at,
        })
    }

    /// The kind of the next token.
    #[tactic(auto, unfolding(crate::specs::Reader::sees, crate::specs::Look::first))]
    pub fn peek(&self) -> Lexeme
        ensures { result ≡ spec.sees self.now }
    {
        self.token.0
    }

    /// Where the next token begins.
    #[tactic(auto, unfolding(crate::specs::Reader::start))]
    pub fn start(&self) -> u32
        ensures { result ≡ spec.start self.now }
    {
        self.at + (self.text.len() - self.ahead.len()) as u32
    }

    /// Where the last token ends.
    pub fn at(&self) -> u32
        ensures { result ≡ self.now.at }
    {
        self.at
    }

    /// The bytes of a form that begins at `from` and ends with the last token.
    pub fn span_from(&self, from: u32) -> Span
        ensures { result ≡ spec.span_from from self.now }
    {
        Span {
            file: self.file,
            from,
            to: self.at,
        }
    }

    /// The bytes of the next token.
    #[tactic(auto, unfolding(crate::specs::Reader::start, crate::specs::Reader::len, crate::specs::Look::first_len))]
    pub fn token_span(&self) -> Span
        ensures { result ≡ spec.token_span self.now }
    {
        let from = self.at + (self.text.len() - self.ahead.len()) as u32;
        Span {
            file: self.file,
            from,
            to: from + self.token.1 as u32,
        }
    }

    /// The text behind the last token, to look ahead.
    pub fn text(&self) -> &'a [u8]
        ensures { result.now ≡ self.now.text }
    {
        self.text
    }

    /// How the next token is written.
    #[tactic(auto, unfolding(crate::specs::Reader::spelling, crate::specs::Reader::len, crate::specs::Look::first_len))]
    pub fn spelling(&self) -> &'a [u8]
        ensures { result.now ≡ spec.spelling self.now }
    {
        &self.ahead[..self.token.1]
    }

    /// How many bytes there are behind the last token.
    #[tactic(auto, unfolding(crate::specs::Reader::left))]
    pub fn left(&self) -> usize
        ensures { result ≡ spec.left self.now }
    {
        self.text.len()
    }

    /// Whether the next token stands on a later line than the last one.
    #[tactic(auto, unfolding(crate::specs::Reader::is_later))]
    pub fn is_later(&self) -> bool
        ensures { result ≡ spec.is_later self.now }
    {
        has_line_end(&self.text[..self.text.len() - self.ahead.len()])
    }

    /// The refusal of the next token.
    #[tactic(auto, unfolding(crate::specs::Reader::refusal))]
    pub fn refuse(&self, kind: Kind) -> ParseError
        ensures { result ≡ ParseError.Refused (spec.refusal kind self.now) }
    {
        ParseError::Refused(Refused {
            kind,
            at: self.token_span(),
        })
    }

    /// Whether the next token is of this kind.
    #[tactic(auto, unfolding(crate::specs::Reader::sees_one))]
    pub fn sees(&self, lexeme: Lexeme) -> bool
        ensures { result ≡ spec.sees_one lexeme self.now }
    {
        same_lexeme(self.peek(), lexeme)
    }

    /// Goes behind the next token, and gives how it is written.
    #[tactic(auto, unfolding(crate::specs::Reader::spelling, crate::specs::Reader::next, crate::specs::Reader::start, crate::specs::Reader::len, crate::specs::Look::first_len, crate::specs::Look::past))]
    pub fn take(&mut self) -> &'a [u8]
        ensures text { result.now ≡ spec.spelling self.old }
        ensures next { self.new ≡ spec.next self.old }
    {
        let at = self.start() + self.token.1 as u32;
        let (spelling, text) = self.ahead.split_at(self.token.1);
        let ahead = skip(text);
        self.token = token(ahead);
        self.at = at;
        self.text = text;
        self.ahead = ahead;
        spelling
    }

    /// Takes the next token if it is of this kind, and says whether it was.
    #[tactic(auto, unfolding(crate::specs::Reader::after))]
    pub fn eat(&mut self, lexeme: Lexeme) -> bool
        ensures found { result ≡ spec.sees_one lexeme self.old }
        ensures after { self.new ≡ spec.after lexeme self.old }
    {
        let found = self.sees(lexeme);
        if found {
            self.take();
        }
        found
    }

    /// Takes the next token, which has to be of this kind. Another one is refused.
    #[tactic(auto, unfolding(crate::specs::Reader::expect))]
    pub fn expect(&mut self, lexeme: Lexeme) -> Result<(), ParseError>
        ensures { Reads (spec.expect lexeme self.old) result self.new }
    {
        if self.sees(lexeme) {
            self.take();
            Ok(())
        } else {
            Err(self.refuse(Kind::Syntax))
        }
    }

    /// Takes the end of a statement: `;`, or nothing before `}`, the end of the text or a later line.
    #[tactic(auto, unfolding(crate::specs::Reader::ending))]
    pub fn ending(&mut self) -> Result<(), ParseError>
        ensures { Reads (spec.ending self.old) result self.new }
    {
        match self.peek() {
            Lexeme::Semi => {
                self.take();
                Ok(())
            }
            Lexeme::RBrace | Lexeme::End => Ok(()),
            _ => {
                if self.is_later() {
                    Ok(())
                } else {
                    Err(self.refuse(Kind::Syntax))
                }
            }
        }
    }

    // The number of a name, which it gets where it has none.
    fn intern(&mut self, text: &str) -> Result<Name, NoMemory>
        ensures name { IfOk result (λ name. name ≡ spec.name_of text.now self.old) }
        ensures known { OnOk result (self.new ≡ spec.knowing text.now self.old) }
    {
        intern(self.known, &mut self.added, text)
    }

    // Takes the next token as this name or word, or refuses it where that is empty.
    #[tactic(auto, unfolding(crate::specs::Reader::word_of))]
    fn take_as(&mut self, text: &str) -> Result<Named, ParseError>
        ensures { Reads (spec.word_of text.now self.old) result self.new }
    {
        if text.is_empty() {
            return Err(self.refuse(Kind::Syntax));
        }
        let span = self.token_span();
        let name = self.intern(text)?;
        self.take();
        Ok(Named { name, span })
    }

    /// Takes a name or a word that is none, and gives it a number. Another token is refused.
    #[tactic(auto, unfolding(crate::specs::Reader::word))]
    pub fn word(&mut self) -> Result<Named, ParseError>
        ensures { Reads (spec.word self.old) result self.new }
    {
        let text = name_text(self.ahead);
        self.take_as(text)
    }

    /// The text of the name or word that comes next, which stays. Another token is refused.
    #[tactic(auto, unfolding(crate::specs::Reader::word_text))]
    pub fn word_text(&self) -> Result<Text, ParseError>
        ensures { Reads (spec.word_text self.now) result self.now }
    {
        let text = name_text(self.ahead);
        if text.is_empty() {
            return Err(self.refuse(Kind::Syntax));
        }
        Ok(Text::new(self.alloc, text)?)
    }

    /// Whether a name is that of this text.
    #[tactic(auto, unfolding(crate::specs::Reader::is_named))]
    pub fn is_named(&self, name: Name, text: &str) -> bool
        ensures { result ≡ spec.is_named text.now name self.now }
    {
        is_text_of(self.known, &self.added, name, text)
    }

    /// Takes a name. Another token is refused.
    #[tactic(auto, unfolding(crate::specs::Reader::name))]
    pub fn name(&mut self) -> Result<Named, ParseError>
        ensures { Reads (spec.name self.old) result self.new }
    {
        if self.sees(Lexeme::Name) {
            self.word()
        } else {
            Err(self.refuse(Kind::Syntax))
        }
    }

    /// Takes a store name, and gives the name behind its `$`. Another token is refused.
    #[tactic(auto, unfolding(crate::specs::Reader::store_name))]
    pub fn store_name(&mut self) -> Result<Named, ParseError>
        ensures { Reads (spec.store_name self.old) result self.new }
    {
        let text = name_text(behind_first(self.ahead));
        self.take_as(text)
    }

    /// Takes a numeral. One that is wider than a number can be is refused.
    #[tactic(auto, unfolding(crate::specs::Literals::numeral))]
    pub fn numeral(&mut self) -> Result<Num, ParseError>
        ensures { Reads (literals.numeral NUMERAL_LIMIT self.old) result self.new }
    {
        let number = number(Base::Ten, NUMERAL_LIMIT + 1, self.spelling());
        match Num::new(number as i64) {
            Some(number) => {
                self.take();
                Ok(number)
            }
            None => Err(self.refuse(Kind::NumberTooWide)),
        }
    }

    /// Takes a string, and gives what it stands for.
    #[tactic(auto, unfolding(crate::specs::Literals::string))]
    pub fn string(&mut self) -> Result<Text, ParseError>
        ensures { Reads (literals.string self.old) result self.new }
    {
        let quote = if byte(self.ahead, 0) == b'\'' {
            Quote::Single
        } else {
            Quote::Double
        };
        let text = text_of(self.alloc, quote, behind_first(self.ahead))?;
        self.take();
        Ok(text)
    }

    // Goes on by so many bytes.
    fn move_by(&mut self, len: usize)
        requires { len ≤ length self.old.text }
        ensures { self.new ≡ literals.moved len self.old }
    {
        let text = &self.text[len..];
        let ahead = skip(text);
        self.token = token(ahead);
        self.at += len as u32;
        self.text = text;
        self.ahead = ahead;
    }

    /// Takes the run of a template that begins directly behind the last token, with the back quote or the `${` that
    /// ends it, and says whether a hole begins. A run without an end is refused where it stops.
    #[tactic(auto, unfolding(crate::specs::Literals::run, crate::specs::Pieces::run_len))]
    pub fn run(&mut self) -> Result<(Run, bool), ParseError>
        ensures { Reads (literals.run self.old) result self.new }
    {
        let behind = rest(Piece::Written(Quote::Back), self.text);
        let len = self.text.len() - behind.len();
        let to = self.at + len as u32;
        let ending = end_len(behind);
        if ending == 0 {
            let at = Span {
                file: self.file,
                from: to,
                to,
            };
            return Err(ParseError::Refused(Refused {
                kind: Kind::Syntax,
                at,
            }));
        }
        let text = text_of(self.alloc, Quote::Back, self.text)?;
        let span = Span {
            file: self.file,
            from: self.at,
            to,
        };
        self.move_by(len + ending);
        Ok((Run { text, span }, ending == 2))
    }

    /// The names that were added to those that it was lent, with which they are a table.
    pub fn into_added(self) -> Names
        ensures value { result ≡ self.entry.added }
        ensures table { IsTable (self.entry.known ++ result) }
    {
        let Tokens { added, .. } = self;
        added
    }
}
