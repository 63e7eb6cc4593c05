// A law of pages, on a function that does nothing.
ghost use Rattle.sv_code.specs.declared.program.Program.{Program};
ghost use Rattle.sv_follow.specs.Slotted.{AreSlotted};
ghost use Rattle.sv_fresh.specs.Fresh.{page_nodes};
ghost use Rattle.sv_fresh.specs.declared.source.Source.{Source};
ghost use Rattle.sv_shapes.specs.Showing.{Showing};
ghost use Rattle.sv_world.specs.declared.world.World.{World};

/// The slots of each element's attributes ascend, on the page of the present states and on the one that is recorded.
pub fn drawn_pages_are_slotted()
    ensures { (source : Source) (p : Program) (w : World) (s : Showing) → AreSlotted (page_nodes source p w s) }
{}
