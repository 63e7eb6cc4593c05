// Tokens and names at the front of a text.
ghost use Rattle.std.specs.Prelude.{◌<◌, length};

use crate::LONGEST;
use std::alloc::Global;
use sv_base::{Names, NoMemory};
use sv_lex::{Tokens, is_name, name_len, name_text};
use sv_rows::yes_or_no;

/// How many bytes of white space and comments stand at the front.
pub fn blanks(alloc: Global, text: &[u8]) -> Result<String, NoMemory>
    requires { length text.now < LONGEST }
{
    let known = Names::empty(alloc);
    let tokens = Tokens::new(alloc, &known, 0, text, 0);
    Ok(tokens.start().to_string(alloc)?)
}

/// The kind of the first token, and how many bytes it has.
pub fn token(alloc: Global, text: &[u8]) -> Result<String, NoMemory>
    requires { length text.now < LONGEST }
{
    let known = Names::empty(alloc);
    let tokens = Tokens::new(alloc, &known, 0, text, 0);
    Ok(format!(in alloc; "{:?} {}", tokens.peek(), tokens.spelling().len())?)
}

/// Whether the text is one name.
pub fn whole_name(alloc: Global, text: &[u8]) -> Result<String, NoMemory> {
    Ok(String::from_str(alloc, yes_or_no(is_name(text)))?)
}

/// The name or word at the front, and how many bytes it has.
pub fn name_in_front(alloc: Global, text: &[u8]) -> Result<String, NoMemory> {
    Ok(format!(in alloc; "{} {}", name_text(text), name_len(text))?)
}
