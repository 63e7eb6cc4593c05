// What an import may name.
ghost use Rattle.std.specs.Prelude.{◌≡◌};
ghost use Rattle.std.specs.List.{list_any};
ghost use Rattle.sv_script.specs.Files as spec;

use crate::contextual::same_text;
use sv_base::built_in::{LIFE_MODULE, STORE_MODULE};

fn is_other_byte(b: u8) -> bool
    ensures { result ≡ spec.is_other_byte b }
{
    !(b.is_ascii_alphanumeric() || b == b'_' || b == b'-')
}

fn has_other(z: &[u8]) -> bool
    ensures { result ≡ list_any (λ b. spec.is_other_byte b) z.now }
{
    z.iter().any(|b| is_other_byte(*b))
}

#[tactic(auto, unfolding(crate::specs::Files::is_file_name))]
fn is_file_name(z: &[u8]) -> bool
    ensures { result ≡ spec.is_file_name z.now }
{
    !z.is_empty() && !has_other(z)
}

#[tactic(auto, unfolding(crate::specs::Files::has_ending))]
fn has_ending(ending: &[u8], z: &[u8]) -> bool
    ensures { result ≡ spec.has_ending ending.now z.now }
{
    let (name, rest) = z.split_at(z.len().saturating_sub(ending.len()));
    same_text(rest, ending) && is_file_name(name)
}

// `./`, a name of a file and the ending.
#[tactic(auto, unfolding(crate::specs::Files::is_path))]
fn is_path(ending: &str, z: &[u8]) -> bool
    ensures { result ≡ spec.is_path ending.now z.now }
{
    let (front, rest) = z.split_at(z.len().min(2));
    same_text(front, b"./") && has_ending(ending.as_bytes(), rest)
}

/// Whether an import, without braces or with them, may name this.
#[tactic(auto, unfolding(crate::specs::Files::is_source))]
pub fn is_source(is_whole: bool, text: &str) -> bool
    ensures { result ≡ spec.is_source is_whole text.now }
{
    let z = text.as_bytes();
    if is_whole {
        return is_path(".svelte", z);
    }
    text == LIFE_MODULE || text == STORE_MODULE || is_path(".js", z)
}
