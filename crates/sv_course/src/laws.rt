// Laws of flushes, on functions that do nothing.
ghost use Rattle.std.specs.Prelude.{◌≡◌};
ghost use Rattle.sv_code.specs.declared.program.Program.{Program};
ghost use Rattle.sv_course.specs.Watched.{AreWatched};
ghost use Rattle.sv_flush.specs.Creation.{mounted};
ghost use Rattle.sv_flush.specs.Outcome.{Done};
ghost use Rattle.sv_flush.specs.Page.{begun, blank};
ghost use Rattle.sv_flush.specs.declared.page.Page.{Page};
ghost use Rattle.sv_shapes.specs.Showing.{shown_of};

/// When the root was made with all below it, each live instance that is shown has the constants on which it was shown, and so have module files; and where
/// the cell for its owner's view didn't move since, it was shown before the view that it was lent last.
pub fn shown_instances_are_watched()
    ensures mounting { (p : Program) (m : Page) → mounted p (begun blank) ≡ Done tt m → AreWatched p m.world.modules (shown_of m.showing) m.world.states }
{}
