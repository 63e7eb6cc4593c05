// The names that the scopes round a part of markup hide.
ghost use Rattle.std.specs.Prelude.{◌≡◌, ◌++◌};
ghost use Rattle.sv_names.specs.Distinct.{has};
ghost use Rattle.sv_sites.specs.Hidden.{all_hidden};

use sv_ast::Ref;
use sv_names::Distinct;

/// The scopes round a part of markup: rows, and contents with `let:` names.
#[derive(Drop)]
pub(crate) enum Hidden<'a> {
    Nothing,
    /// A scope of some names in another.
    Inside {
        outer: &'a Hidden<'a>,
        names: &'a Distinct,
    },
}

impl<'a> Hidden<'a> {
    /// A scope of some names in another.
    pub(crate) fn inside(outer: &'a Hidden<'a>, names: &'a Distinct) -> Hidden<'a>
        ensures { all_hidden result ≡ names.now ++ all_hidden outer.now }
    {
        Hidden::Inside { outer, names }
    }
}

/// Whether a name is hidden.
#[tactic(auto, using(crate::proofs::Hiding::has_append))]
pub(crate) fn is_hidden(hidden: &Hidden<'_>, name: Ref) -> bool
    ensures { result ≡ has name (all_hidden hidden.now) }
{
    match hidden {
        Hidden::Nothing => false,
        Hidden::Inside { outer, names } => names.has(name) || is_hidden(outer, name),
    }
}
