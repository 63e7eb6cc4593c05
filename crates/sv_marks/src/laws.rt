// Laws of pages, on functions that do nothing.
ghost use Rattle.std.specs.List.{All};
ghost use Rattle.std.specs.Prelude.{◌≢◌, ◌≤◌, ℕ, List};
ghost use Rattle.sv_code.specs.Compiled.{IsCompiled};
ghost use Rattle.sv_code.specs.Content.{AreContentsSeen};
ghost use Rattle.sv_code.specs.declared.program.Program.{Program};
ghost use Rattle.sv_document.specs.Marks.{marks};
ghost use Rattle.sv_events.specs.declared.event.Event.{Event};
ghost use Rattle.sv_family.specs.Family.{IsFamily};
ghost use Rattle.sv_flush.specs.declared.page.Page.{Page};
ghost use Rattle.sv_fresh.specs.Fresh.{drawn};
ghost use Rattle.sv_marks.specs.Marks.{LeavesMarksApart};
ghost use Rattle.sv_page.specs.Run.{run};
ghost use Rattle.sv_places.specs.Numbers.{count};

/// Where instances stand as they should, no mark but 0 stands at two nodes of the page that is recorded; a node beside which nothing is recorded has 0.
pub fn no_two_nodes_have_one_mark()
    ensures { (p : Program) (m : Page) (mark : ℕ) → IsFamily p m → mark ≢ 0 → count mark (marks (drawn p m.world m.showing)) ≤ 1 }
{}

/// So it is behind each turn of a run that isn't refused.
pub fn marks_stand_apart_in_runs()
    ensures { (p : Program) (events : List Event) → IsCompiled p → AreContentsSeen p → All (LeavesMarksApart p) (run p events) }
{}
