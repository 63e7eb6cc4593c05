// Those who watch a page.
ghost use Rattle.std.specs.Prelude.{◌≡◌, []};

use std::alloc::Global;
use sv_watch::Watcher;

/// Those who watch a page, and those that refused a change of it and are told no more.
#[derive(Drop)]
pub struct Audience<W: Watcher> {
    pub watchers: Vec<W>,
    pub gone: Vec<W>,
}

impl<W: Watcher> Audience<W> {
    /// Nobody.
    pub fn new(alloc: Global) -> Audience<W>
        ensures watchers { result.watchers.items ≡ [] }
        ensures gone { result.gone.items ≡ [] }
    {
        Audience {
            watchers: Vec::new(alloc),
            gone: Vec::new(alloc),
        }
    }
}
