// Single bytes of a text.
ghost use Rattle.std.specs.Prelude.{◌≡◌, ◌≢◌, ◌<◌, ◌≤◌, length, drop, slice_index};

/// The byte at a place, or 0 past the end.
pub fn byte(z: &[u8], at: usize) -> u8
    ensures value { result ≡ slice_index z.now at }
    ensures within { result ≢ 0 → at < length z.now }
{
    if at < z.len() { z[at] } else { 0 }
}

/// The text behind its first byte.
pub fn behind_first(z: &[u8]) -> &[u8]
    ensures value { result.now ≡ drop 1 z.now }
    ensures within { length result.now ≤ length z.now }
{
    if z.is_empty() { z } else { &z[1..] }
}
