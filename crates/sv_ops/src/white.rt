// White space at the ends of a text.
ghost use Rattle.std.specs.Prelude.{◌≡◌, ◌<◌, ◌^◌, length};
ghost use Rattle.std.specs.Str.{chars};
ghost use Rattle.sv_ops.specs.White as spec;
ghost use Rattle.sv_ops.specs.Texts.{trim};
ghost use Rattle.sv_ops.specs.Answers.{Answers};

use crate::faults::OpError;
use crate::given::Given;
use crate::make::spell;
use std::alloc::Global;

/// `trim`: a text without white space at its ends, which costs its bytes and those of the text, which is walked.
pub fn trimmed(alloc: Global, text: &str) -> Result<Given, OpError>
    ensures { Answers result (trim text.now) }
{
    spell(alloc, text.len(), text.trim_matches(is_white))
}

fn is_white(c: char) -> bool
    ensures { result ≡ spec.is_white c }
{
    matches!(
        c,
        '\u{9}'..='\u{D}'
            | ' '
            | '\u{A0}'
            | '\u{1680}'
            | '\u{2000}'..='\u{200A}'
            | '\u{2028}'
            | '\u{2029}'
            | '\u{202F}'
            | '\u{205F}'
            | '\u{3000}'
            | '\u{FEFF}'
    )
}
