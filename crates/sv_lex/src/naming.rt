// Names that a parser adds to those that it was lent.
ghost use Rattle.std.specs.Prelude.{◌≡◌, ◌++◌, slice_get, IfOk, OnOk, OnErr};
ghost use Rattle.sv_base.specs.Names.{number_of, IsTable};
ghost use Rattle.sv_lex.specs.Look.{is_name};
ghost use Rattle.sv_lex.specs.Reader as spec;

use crate::lexeme::Lexeme;
use crate::look::same_lexeme;
use crate::token::{name_len, token};
use std::str;
use sv_base::{NAME_LIMIT, Name, Names, NoMemory};

/// The name or word at the front, as text.
pub fn name_text(z: &[u8]) -> &str
    ensures { result.now ≡ spec.name_text z.now }
{
    match str::from_utf8(&z[..name_len(z)]) {
        Ok(text) => text,
        Err(_) => unreachable!(),
    }
}

/// Whether the text is one name.
#[tactic(auto, unfolding(crate::specs::Look::is_name))]
pub fn is_name(z: &[u8]) -> bool
    ensures { result ≡ is_name z.now }
{
    let (lexeme, len) = token(z);
    same_lexeme(lexeme, Lexeme::Name) && len == z.len()
}

/// The name of a text, which goes to the added ones where the lent ones lack it.
pub fn intern(known: &Names, added: &mut Names, text: &str) -> Result<Name, NoMemory>
    requires { IsTable (known.now ++ added.old) }
    ensures name { IfOk result (λ name. name.0 ≡ number_of text.now (known.now ++ added.old)) }
    ensures added { OnOk result (added.new ≡ spec.added_with text.now known.now added.old) }
    ensures err { OnErr result (added.new ≡ added.old) }
    ensures table { IsTable (known.now ++ added.new) }
{
    if let Some(name) = known.find(text) {
        return Ok(name);
    }
    let count = known.len();
    if count as usize + added.len() as usize == NAME_LIMIT {
        return Err(NoMemory);
    }
    let Name(number) = added.intern(text)?;
    Ok(Name(count + number))
}

/// Whether the name is that of this text.
pub fn is_text_of(known: &Names, added: &Names, name: Name, text: &str) -> bool
    ensures { result ≡ spec.is_same_text text.now (slice_get (known.now ++ added.now) name.0) }
{
    let count = known.len();
    let found = if name.0 < count {
        known.text(name)
    } else {
        added.text(Name(name.0 - count))
    };
    match found {
        Some(found) => found == text,
        None => false,
    }
}
