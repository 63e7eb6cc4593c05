// What a walk knows of its points, and where it stands.
ghost use Rattle.std.specs.Prelude.{◌≡◌, ◌<◌, ◌+◌, ◌^◌, length, IsSome};
ghost use Rattle.sv_graph.specs.Walk.{link_at, is_new};

use sv_list::Items;

/// How far a walk has come with a point.
#[derive(Clone, Copy, Debug)]
pub(crate) enum Mark {
    /// It was not met.
    New,
    /// It is linked to points that are being visited.
    Open,
    /// It is placed.
    Done,
}

impl Mark {
    /// Whether the point was not met.
    pub(crate) fn is_new(self) -> bool
        ensures { result ≡ is_new self }
    {
        match self {
            Mark::New => true,
            Mark::Open => false,
            Mark::Done => false,
        }
    }
}

/// A point that is being visited, and the place of the next point that it goes on to.
#[derive(Clone, Copy, Debug)]
pub(crate) struct Frame {
    pub(crate) point: u32,
    pub(crate) next: usize,
}

/// The next point that a frame goes on to, where there is one.
pub(crate) fn next_link(links: &[Items<u32>], frame: &Frame) -> Option<u32>
    requires { frame.now.point < length links.now }
    ensures point { result ≡ link_at links.now frame.now }
    ensures small { IsSome result → frame.now.next + 1 < 2 ^ 64 }
{
    let points = links[frame.point as usize].as_slice();
    if frame.next < points.len() {
        Some(points[frame.next])
    } else {
        None
    }
}
