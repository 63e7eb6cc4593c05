// The first of the mistakes that are found.
ghost use Rattle.std.specs.Prelude.{◌≡◌, fold};
ghost use Rattle.sv_check.specs.First.{joined};
ghost use Rattle.sv_resolve.specs.Earliest.{earlier};
ghost use Rattle.sv_resolve.specs.Mistakes.{refused};

use sv_base::Span;
use sv_resolve::{CheckKind, CheckRefusal, offer};

/// Keeps the first mistake of some in place of the first one so far, if it begins before that.
pub(crate) fn join(first: &mut Option<CheckRefusal>, own: Option<CheckRefusal>)
    ensures { first.new ≡ joined first.old own }
{
    if let Some(own) = own {
        offer(first, own.kind, own.at);
    }
}

/// Offers a mistake at each of some places.
pub(crate) fn offer_all(first: &mut Option<CheckRefusal>, kind: CheckKind, places: &[Span])
    ensures { first.new ≡ fold earlier first.old (refused kind places.now) }
{
    for at in places {
        offer(first, kind, *at);
    }
}
