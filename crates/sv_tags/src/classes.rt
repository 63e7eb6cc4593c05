// Bytes by their classes, and where a text goes on in some way.
ghost use Rattle.std.specs.Prelude.{◌≡◌, ◌≤◌, ◌+◌, length, IfSome, IsTrue};
ghost use Rattle.sv_tags.specs.Classes as spec;

use memchr::memmem;

/// The classes of bytes in tags.
#[derive(Clone, Copy)]
pub enum Class {
    /// White space: SPACE, TAB, LF, FF and CR.
    Blank,
    /// What the name of a tag goes on with: ASCII letters, digits and `-`.
    TagRest,
    /// What the name of an attribute is made of: ASCII letters, digits, `-`, `_` and `:`.
    AttributeName,
    /// What the name of a reference is made of: ASCII letters, digits and `#`.
    Reference,
}

fn is_letter(b: u8) -> bool
    ensures { result ≡ spec.is_letter b }
{
    (b'a' <= b && b <= b'z') || (b'A' <= b && b <= b'Z')
}

fn is_digit(b: u8) -> bool
    ensures { result ≡ spec.is_digit b }
{
    b'0' <= b && b <= b'9'
}

/// Whether it is white space.
pub(crate) fn is_blank(b: u8) -> bool
    ensures { result ≡ spec.is_blank b }
{
    b == b' ' || b == b'\t' || b == b'\n' || b == b'\x0C' || b == b'\r'
}

/// Whether it is of the class.
pub(crate) fn is_in(class: Class, b: u8) -> bool
    ensures { result ≡ spec.is_in class b }
{
    match class {
        Class::Blank => is_blank(b),
        Class::TagRest => is_letter(b) || is_digit(b) || b == b'-',
        Class::AttributeName => {
            is_letter(b) || is_digit(b) || b == b'-' || b == b'_' || b == b':'
        }
        Class::Reference => is_letter(b) || is_digit(b) || b == b'#',
    }
}

/// How many bytes at the front are of the class.
#[tactic(auto, unfolding(crate::specs::Classes::front_len))]
pub fn front_len(class: Class, z: &[u8]) -> usize
    ensures value { result ≡ spec.front_len class z.now }
    ensures within { result ≤ length z.now }
{
    let mut end = 0;
    while end < z.len() && is_in(class, z[end]) {
        end += 1;
    }
    end
}

/// The bytes at the front that are of the class.
pub(crate) fn front_of(class: Class, z: &[u8]) -> &[u8]
    ensures { result.now ≡ spec.front_of class z.now }
{
    &z[..front_len(class, z)]
}

/// Whether the text begins so.
pub(crate) fn begins(w: &[u8], z: &[u8]) -> bool
    ensures value { result ≡ spec.begins w.now z.now }
    ensures within { IsTrue result → length w.now ≤ length z.now }
{
    z.starts_with(w)
}

/// How many bytes stand before the first place where the text goes on so, if it does.
pub(crate) fn before(w: &[u8], z: &[u8]) -> Option<usize>
    requires { 1 ≤ length w.now }
    ensures value { result ≡ spec.before w.now z.now }
    ensures within { IfSome result (λ n. n + length w.now ≤ length z.now) }
{
    memmem::find(z, w)
}
