// The words of a selector.
ghost use Rattle.std.specs.Prelude.{◌≡◌, IfOk, IsTrue, true};
ghost use Rattle.std.specs.List.{list_all};
ghost use Rattle.sv_select.specs.Words as spec;

use std::alloc::Global;
use std::str;
use sv_base::{NoMemory, Text};

fn is_word_byte(byte: u8) -> bool
    ensures { result ≡ spec.is_word_byte byte }
{
    byte.is_ascii_alphanumeric() || byte == b'-' || byte == b'_'
}

fn are_word_bytes(word: &[u8]) -> bool
    ensures { result ≡ list_all spec.is_word_byte word.now }
{
    word.iter().all(|byte| is_word_byte(*byte))
}

fn is_tag_byte(byte: u8) -> bool
    ensures { result ≡ spec.is_tag_byte byte }
{
    byte.is_ascii_alphanumeric() || byte == b'-'
}

fn are_tag_bytes(word: &[u8]) -> bool
    ensures { result ≡ list_all spec.is_tag_byte word.now }
{
    word.iter().all(|byte| is_tag_byte(*byte))
}

// Whether it is a word: of ASCII letters, digits, `-` and `_`, and not empty.
pub(crate) fn is_word(word: &[u8]) -> bool
    ensures { result ≡ spec.is_word word.now }
{
    !word.is_empty() && are_word_bytes(word)
}

// Whether it is the name of a tag: an ASCII small letter, and then letters, digits and `-`.
pub(crate) fn is_tag(word: &[u8]) -> bool
    ensures { result ≡ spec.is_tag word.now }
{
    match word.split_first() {
        Some((first, more)) => first.is_ascii_lowercase() && are_tag_bytes(more),
        None => false,
    }
}

// A word as text.
pub(crate) fn text_of(alloc: Global, word: &[u8]) -> Result<Text, NoMemory>
    requires { list_all spec.is_word_byte word.now ≡ true }
    ensures { IfOk result (λ text. text ≡ word.now) }
{
    match str::from_utf8(word) {
        Ok(text) => Text::new(alloc, text),
        Err(_) => unreachable!(),
    }
}
