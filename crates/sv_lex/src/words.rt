// Words that are no names.
ghost use Rattle.std.specs.Prelude.{◌≡◌};
ghost use Rattle.std.specs.List.{list_any};
ghost use Rattle.std.specs.Str.{bytes_eq};
ghost use Rattle.sv_lex.specs.Words as spec;

use crate::lexeme::Lexeme;

fn same_text(a: &[u8], b: &[u8]) -> bool
    ensures { result ≡ bytes_eq a.now b.now }
{
    a == b
}

const RESERVED: [&str; 33] = [
    "case",
    "catch",
    "class",
    "debugger",
    "default",
    "delete",
    "do",
    "enum",
    "extends",
    "finally",
    "in",
    "instanceof",
    "new",
    "super",
    "switch",
    "this",
    "throw",
    "try",
    "typeof",
    "var",
    "void",
    "with",
    "yield",
    "await",
    "static",
    "implements",
    "interface",
    "package",
    "private",
    "protected",
    "public",
    "eval",
    "arguments",
];

fn is_among(word: &[u8], words: &[&str]) -> bool
    ensures { result ≡ list_any (λ w. bytes_eq word.now w.now) words.now }
{
    words.iter().any(|w| same_text(word, w.as_bytes()))
}

// Whether no form is written with the word, and it is no name.
#[tactic(auto, unfolding(crate::specs::Words::is_reserved))]
fn is_reserved(word: &[u8]) -> bool
    ensures { result ≡ spec.is_reserved word.now }
{
    is_among(word, &RESERVED)
}

#[tactic(auto, unfolding(crate::specs::Words::later_keyword))]
fn later_keyword(word: &[u8]) -> Lexeme
    ensures { result ≡ spec.later_keyword word.now }
{
    if same_text(word, b"if") {
        Lexeme::If
    } else if same_text(word, b"import") {
        Lexeme::Import
    } else if same_text(word, b"let") {
        Lexeme::Let
    } else if same_text(word, b"null") {
        Lexeme::Null
    } else if same_text(word, b"return") {
        Lexeme::Return
    } else if same_text(word, b"true") {
        Lexeme::True
    } else if same_text(word, b"undefined") {
        Lexeme::Undefined
    } else if same_text(word, b"while") {
        Lexeme::While
    } else {
        if is_reserved(word) {
            Lexeme::Reserved
        } else {
            Lexeme::Name
        }
    }
}

/// The kind of a word: its own where forms are written with it, `Reserved` for the other words that are no names, and
/// else `Name`.
#[tactic(auto, unfolding(crate::specs::Words::keyword))]
pub fn keyword(word: &[u8]) -> Lexeme
    ensures { result ≡ spec.keyword word.now }
{
    if same_text(word, b"break") {
        Lexeme::Break
    } else if same_text(word, b"const") {
        Lexeme::Const
    } else if same_text(word, b"continue") {
        Lexeme::Continue
    } else if same_text(word, b"else") {
        Lexeme::Else
    } else if same_text(word, b"export") {
        Lexeme::Export
    } else if same_text(word, b"false") {
        Lexeme::False
    } else if same_text(word, b"for") {
        Lexeme::For
    } else if same_text(word, b"function") {
        Lexeme::Function
    } else {
        later_keyword(word)
    }
}
