// Names that a form is written with.
ghost use Rattle.std.specs.Prelude.{◌≡◌};
ghost use Rattle.std.specs.Str.{bytes_eq};
ghost use Rattle.sv_lex.specs.Reader as reader;
ghost use Rattle.sv_lex.specs.Reader.{Reads};
ghost use Rattle.sv_script.specs.Rules as spec;

use sv_ast::{Kind, ParseError};
use sv_lex::Tokens;

/// Whether two texts are the same.
pub fn same_text(a: &[u8], b: &[u8]) -> bool
    ensures { result ≡ bytes_eq a.now b.now }
{
    a == b
}

/// Whether the next token is written so.
pub fn is_written(tokens: &Tokens<'_>, text: &str) -> bool
    ensures { result ≡ bytes_eq (reader.spelling tokens.now) text.now }
{
    same_text(tokens.spelling(), text.as_bytes())
}

/// Takes the name that is written so. Another token is refused.
#[tactic(auto, unfolding(crate::specs::Rules::word_as))]
pub fn word_as(tokens: &mut Tokens<'_>, text: &str) -> Result<(), ParseError>
    ensures { Reads (spec.word_as text.now tokens.old) result tokens.new }
{
    if is_written(tokens, text) {
        tokens.take();
        Ok(())
    } else {
        Err(tokens.refuse(Kind::Syntax))
    }
}
