// Laws of runs, on functions that do nothing.
ghost use Rattle.std.specs.List.{All};
ghost use Rattle.std.specs.Prelude.{List, Option};
ghost use Rattle.sv_code.specs.declared.program.Program.{Program};
ghost use Rattle.sv_document.specs.Element.{Element};
ghost use Rattle.sv_events.specs.declared.event.Event.{Event};
ghost use Rattle.sv_frame.specs.Computed.{LeavesComputed};
ghost use Rattle.sv_input.specs.Walk.{dispatched};
ghost use Rattle.sv_page.specs.Current.{LeavesCurrent};
ghost use Rattle.sv_page.specs.Run.{run};

/// Behind each turn of a run that isn't refused nothing waits, each live instance that is shown is shown on its present cells, what views hold of
/// instances' cells is no later than what their last snapshots saw, and derived stores are what their functions gave, with none pending.
pub fn turns_leave_current_pages()
    ensures { (p : Program) (events : List Event) → All (LeavesCurrent p) (run p events) }
{}

/// Where no derived store is pending and each has what its function gave on the values of its inputs, so it is again behind what an event does before
/// the flush: typed inputs and handlers.
pub fn events_leave_stores_computed()
    ensures { (p : Program) (event : Event) (path : Option (List Element)) → LeavesComputed p (dispatched p event path) }
{}
