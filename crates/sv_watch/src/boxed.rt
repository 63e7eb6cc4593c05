// Watchers in boxes, so that watchers of many kinds stand in one list.
use crate::{TellError, Watcher};
use std::alloc::Global;
use sv_base::NoMemory;
use sv_tokens::Change;

impl Watcher for Box<dyn Watcher> {
    ghost heard = { λ it. (Watcher-box it).heard it.value };

    ghost faults = { λ it. (Watcher-box it).faults it.value };

    ghost report_of = { λ it. (Watcher-box it).report_of it.value };

    fn tell(&mut self, change: &Change) -> Result<(), TellError> {
        (**self).tell(change)
    }

    fn report(&self, alloc: Global) -> Result<Vec<u8>, NoMemory> {
        (**self).report(alloc)
    }
}
