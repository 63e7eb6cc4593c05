// Laws of views, on functions that do nothing.
ghost use Rattle.sv_flush.specs.Known.{PresentIsKnown, ShownIsKnown, LocalsAreKnown, ContentIsKnown, HeldIsPast, VersionsTellCells};

/// The view of an instance's present cells and the one on which it was shown last are known on its page, and so are the views that rows and slots make
/// of known ones.
pub fn known_views()
    ensures present { PresentIsKnown }
    ensures shown { ShownIsKnown }
    ensures locals { LocalsAreKnown }
    ensures content { ContentIsKnown }
{}

/// What views hold of a live instance's cells is no later than its present cells, and of two known views of one instance equal versions of a cell mean
/// equal values.
pub fn versions_tell_cells()
    ensures past { HeldIsPast }
    ensures same { VersionsTellCells }
{}
