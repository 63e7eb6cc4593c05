// The words of a class.
ghost use Rattle.std.specs.Prelude.{◌≡◌, false, IfOk};
ghost use Rattle.std.specs.List.{list_any};
ghost use Rattle.std.specs.Str.{bytes_eq};
ghost use Rattle.sv_attributes.specs.Words as spec;

use std::alloc::Global;
use sv_base::{NoMemory, Text};
use sv_list::Items;
use sv_shapes::{Texts, share_texts};

/// The words of a text, between which white space stands.
pub fn words(alloc: Global, text: &str) -> Result<Texts, NoMemory>
    ensures { IfOk result (λ words. words ≡ spec.words text.now) }
{
    let mut words = Items::new(alloc);
    for word in text.split_ascii_whitespace() {
        words.push(Text::new(alloc, word)?)?;
    }
    Ok(words)
}

fn has_word(words: &[Text], word: &str) -> bool
    ensures { result ≡ list_any (λ x. bytes_eq x word.now) words.now }
{
    for own in words {
        if own.as_str() == word {
            return true;
        }
    }
    false
}

// The words without one, however often it stands there.
fn without_word(alloc: Global, words: &[Text], word: &str) -> Result<Texts, NoMemory>
    ensures { IfOk result (λ kept. kept ≡ spec.with_word word.now false words.now) }
{
    let mut kept = Items::new(alloc);
    for own in words {
        if own.as_str() != word {
            kept.push(own.share()?)?;
        }
    }
    Ok(kept)
}

/// The words with one more, where it isn't there, or without it.
pub fn with_word(alloc: Global, words: &[Text], word: &str, wanted: bool) -> Result<Texts, NoMemory>
    ensures { IfOk result (λ now. now ≡ spec.with_word word.now wanted words.now) }
{
    if !wanted {
        return without_word(alloc, words, word);
    }
    let mut now = share_texts(alloc, words)?;
    if !has_word(words, word) {
        now.push(Text::new(alloc, word)?)?;
    }
    Ok(now)
}
