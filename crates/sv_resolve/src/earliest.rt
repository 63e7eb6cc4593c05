// The first of the mistakes that are found.
ghost use Rattle.std.specs.Prelude.{◌≡◌};
ghost use Rattle.sv_resolve.specs.Earliest.{earlier};

use crate::refusals::{CheckKind, CheckRefusal};
use sv_base::Span;

/// Keeps a mistake in place of the first one so far, if it begins before that.
pub fn offer(first: &mut Option<CheckRefusal>, kind: CheckKind, at: Span)
    ensures { first.new ≡ earlier first.old (record { kind = kind; at = at }) }
{
    let is_earlier = match first {
        Some(first) => at.from < first.at.from,
        None => true,
    };
    if is_earlier {
        *first = Some(CheckRefusal { kind, at });
    }
}
