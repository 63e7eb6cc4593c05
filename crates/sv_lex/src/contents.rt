// What strings and the runs of templates stand for.
ghost use Rattle.std.specs.Prelude.{◌≡◌, ◌≤◌, length, IfOk};
ghost use Rattle.sv_lex.specs.Literals as spec;

use crate::front::byte;
use crate::strings::{Quote, written};
use std::alloc::Global;
use sv_base::{NoMemory, Text};

/// The text that is written at the front of the inside of a string or a template, as far as it goes.
pub fn text_of(alloc: Global, quote: Quote, mut z: &[u8]) -> Result<Text, NoMemory>
    ensures { IfOk result (λ text. text ≡ spec.text_of quote z.entry.now) }
{
    let mut text = String::new(alloc);
    while let Some((c, len)) = written(quote, z) {
        text.push(c)?;
        z = &z[len..];
    }
    Text::new(alloc, text.as_str())
}

/// How many bytes the end of a run of a template at the front takes, or 0 where there is none.
pub fn end_len(z: &[u8]) -> usize
    ensures value { result ≡ spec.end_len z.now }
    ensures within { result ≤ length z.now }
{
    if byte(z, 0) == b'`' {
        1
    } else if byte(z, 0) == b'$' && byte(z, 1) == b'{' {
        2
    } else {
        0
    }
}
