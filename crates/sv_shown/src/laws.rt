// Laws of what is shown, on functions that do nothing.
ghost use Rattle.std.specs.Prelude.{◌≡◌, List, []};
ghost use Rattle.std.specs.List.{All};
ghost use Rattle.sv_code.specs.Compiled.{IsCompiled};
ghost use Rattle.sv_code.specs.declared.program.Program.{Program};
ghost use Rattle.sv_events.specs.declared.event.Event.{Event};
ghost use Rattle.sv_flush.specs.Creation.{mounted};
ghost use Rattle.sv_flush.specs.Outcome.{Done};
ghost use Rattle.sv_flush.specs.Page.{begun, blank};
ghost use Rattle.sv_flush.specs.declared.page.Page.{Page};
ghost use Rattle.sv_page.specs.Run.{run};
ghost use Rattle.sv_shown.specs.Fresh.{IsFresh, LeavesFresh, LeavesRight};
ghost use Rattle.sv_within.specs.Keys.{AreAllKeysSeen};

/// Where nobody waits once the root was made with all below it, the first page, which `render` prints, is the fresh page of the present states.
pub fn first_page_is_fresh()
    ensures { (p : Program) (m : Page) → IsCompiled p → AreAllKeysSeen p → mounted p (begun blank) ≡ Done tt m → m.world.states.queue ≡ [] → IsFresh p m }
{}

/// Behind each turn of a run that isn't refused, the page that is drawn of what patches recorded is the fresh page of the present states: each text, each
/// attribute, each branch, each row and each slot is what an evaluation gives now. Nothing was lost. And what is held of each instance is right on its
/// present view: each text and each element has its mark, each component tag its place, each text its value, and each list its rows and keys.
pub fn turns_leave_fresh_pages()
    ensures page { (p : Program) (events : List Event) → IsCompiled p → AreAllKeysSeen p → All (LeavesFresh p) (run p events) }
    ensures held { (p : Program) (events : List Event) → IsCompiled p → AreAllKeysSeen p → All (LeavesRight p) (run p events) }
{}
