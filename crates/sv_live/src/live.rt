// What a page shows now.
ghost use Rattle.std.specs.Prelude.{◌≡◌};
ghost use Rattle.sv_live.specs.Shown as shown;
ghost use Rattle.sv_live.specs.Known as known;

use crate::node::Own;
use sv_base::Text;
use sv_list::Items;

/// A node of the page: its key, and its serial number.
#[derive(Clone, Copy, Debug, PartialEq, Eq)]
pub struct Named {
    pub key: u32,
    pub serial: u64,
}

/// What is shown in one place, in order.
pub type Lives = Items<Live>;

/// What is shown, with the nodes of the page.
#[derive(Drop)]
pub enum Live {
    Text {
        mark: u64,
        named: Named,
        text: Text,
    },
    Element {
        named: Named,
        own: Own,
        parts: Lives,
    },
    /// A child component: the node that marks its place, and before it what the child shows.
    Hole {
        place: u64,
        anchor: u32,
        parts: Lives,
    },
}

impl Live {
    /// The key of its first node.
    pub fn lead(&self) -> u32
        ensures { result ≡ shown.lead self.now }
    {
        match self {
            Live::Text { named, .. } => named.key,
            Live::Element { named, .. } => named.key,
            Live::Hole { anchor, parts, .. } => match parts.as_slice().first() {
                Some(first) => first.lead(),
                None => *anchor,
            },
        }
    }

    /// The number by which it is known among those beside it.
    pub fn number(&self) -> u128
        ensures { result ≡ known.number self.now }
    {
        match self {
            Live::Text { mark, .. } => by_mark(*mark),
            Live::Element { own, .. } => by_mark(own.mark),
            Live::Hole { place, .. } => by_place(*place),
        }
    }
}

/// The number by which the text or the element with a mark is known.
pub fn by_mark(mark: u64) -> u128
    ensures { result ≡ known.by_mark mark }
{
    2 * u128::from(mark)
}

/// The number by which the child component at a place is known.
pub fn by_place(place: u64) -> u128
    ensures { result ≡ known.by_place place }
{
    2 * u128::from(place) + 1
}
