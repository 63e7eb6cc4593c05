// What a walk through a template is handed.
ghost use Rattle.std.specs.Prelude.{◌≡◌, ◌||◌};
ghost use Rattle.std.specs.List.{list_any};
ghost use Rattle.sv_parts.specs.Sides.{sides, has_moved, cell_moved, local_moved, moved};

use std::alloc::Global;
use sv_base::Name;
use sv_code::{Program, Reading};
use sv_view::{At, View};

/// The program; for each level of the view, its own first, the number of the tag with which that instance stands in its owner's markup; the
/// view on which the template was shown before; and the one on which it is shown now. Where nothing was shown before, any view serves as the
/// old one. What is made takes its memory from `alloc`.
#[derive(Clone, Copy)]
pub struct Here<'a> {
    pub alloc: Global,
    pub program: &'a Program,
    pub tags: &'a [Option<u32>],
    pub old: &'a View,
    pub new: &'a View,
}

impl Here<'_> {
    /// Whether one of the things that are looked at moved.
    #[tactic(auto, unfolding(crate::specs::Sides::moved))]
    pub fn has_moved(&self, reads: &Reading) -> bool
        ensures { result ≡ moved reads.now (sides self.now) }
    {
        self.has_cell_moved(reads.cells.as_slice()) || self.has_local_moved(reads.locals.as_slice())
    }

    fn has_cell_moved(&self, cells: &[u8]) -> bool
        ensures { result ≡ list_any (cell_moved (sides self.now)) cells.now }
    {
        for cell in cells {
            if self.is_moved(At::Cell(*cell)) {
                return true;
            }
        }
        false
    }

    fn has_local_moved(&self, names: &[Name]) -> bool
        ensures { result ≡ list_any (local_moved (sides self.now)) names.now }
    {
        for name in names {
            if self.is_moved(At::Local(*name)) {
                return true;
            }
        }
        false
    }

    fn is_moved(&self, place: At) -> bool
        ensures { result ≡ has_moved place (sides self.now) }
    {
        self.old.version(place) != self.new.version(place)
    }
}
