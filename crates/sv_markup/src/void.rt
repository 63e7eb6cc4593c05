// Elements without children.
ghost use Rattle.std.specs.Prelude.{◌≡◌};
ghost use Rattle.sv_markup.specs.Void as spec;

const VOID: [&str; 16] = [
    "area", "base", "br", "col", "command", "embed", "hr", "img", "input", "keygen", "link",
    "meta", "param", "source", "track", "wbr",
];

/// Whether an element of this name has no children and no end tag (HTML, 'Void elements', and the obsolete ones).
#[tactic(auto, unfolding(crate::specs::Void::is_void))]
pub fn is_void(name: &str) -> bool
    ensures { result ≡ spec.is_void name.now }
{
    VOID.contains(&name)
}
