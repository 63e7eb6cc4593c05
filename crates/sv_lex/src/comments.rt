// White space and comments.
ghost use Rattle.std.specs.Prelude.{◌≡◌, ◌≤◌, length};
ghost use Rattle.sv_lex.specs.Comments as spec;

use crate::characters::{Class, char_len};
use crate::front::byte;

// How many bytes there are before the first line feed.
fn line_len(z: &[u8]) -> usize
    ensures value { result ≡ spec.line_len z.now }
    ensures within { result ≤ length z.now }
{
    let mut end = 0;
    while end < z.len() && z[end] != b'\n' {
        end += 1;
    }
    end
}

// How many bytes there are up to the first `*/` and with it, or 0 where there is none.
fn close_len(z: &[u8]) -> usize
    ensures value { result ≡ spec.close_len z.now }
    ensures within { result ≤ length z.now }
{
    for at in 0..z.len() {
        if z[at] == b'*' && byte(z, at + 1) == b'/' {
            return at + 2;
        }
    }
    0
}

/// How many bytes the white space character or the comment at the front takes, or 0 where there is none.
#[tactic(auto, unfolding(crate::specs::Comments::blank_len))]
pub fn blank_len(z: &[u8]) -> usize
    ensures value { result ≡ spec.blank_len z.now }
    ensures within { result ≤ length z.now }
{
    if byte(z, 0) != b'/' {
        return char_len(Class::Space, z);
    }
    match byte(z, 1) {
        b'/' => 2 + line_len(&z[2..]),
        b'*' => match close_len(&z[2..]) {
            0 => 0,
            n => 2 + n,
        },
        _ => 0,
    }
}
