// How elements and branches end.
ghost use Rattle.std.specs.Prelude.{◌≡◌, ◌≤◌, length};
ghost use Rattle.sv_markup.specs.Ends as spec;

use crate::pieces::begins_word;
use sv_lex::byte;
use sv_tags::{Class, front_len};

/// How many bytes the end tag of this name takes, or 0 where none stands at the front.
#[tactic(auto, unfolding(crate::specs::Ends::end_tag_len))]
pub fn end_tag_len(name: &[u8], z: &[u8]) -> usize
    ensures value { result ≡ spec.end_tag_len name.now z.now }
    ensures within { result ≤ length z.now }
{
    if !z.starts_with(b"</") || !z[2..].starts_with(name) {
        return 0;
    }
    let len = 2 + name.len();
    let end = len + front_len(Class::Blank, &z[len..]);
    if byte(z, end) == b'>' { end + 1 } else { 0 }
}

/// How many bytes stand before the condition of a branch that begins at the front, or 0 where none does.
#[tactic(auto, unfolding(crate::specs::Ends::else_if_len))]
pub fn else_if_len(z: &[u8]) -> usize
    ensures value { result ≡ spec.else_if_len z.now }
    ensures within { result ≤ length z.now }
{
    if !z.starts_with(b"{:else") {
        return 0;
    }
    let blanks = front_len(Class::Blank, &z[6..]);
    if 1 <= blanks && begins_word(b"if", &z[6 + blanks..]) {
        8 + blanks
    } else {
        0
    }
}
