// Laws of subscriptions, on functions that do nothing.
ghost use Rattle.std.specs.List.{All};
ghost use Rattle.std.specs.Prelude.{List};
ghost use Rattle.sv_code.specs.declared.program.Program.{Program};
ghost use Rattle.sv_events.specs.declared.event.Event.{Event};
ghost use Rattle.sv_page.specs.Run.{run};
ghost use Rattle.sv_subscribed.specs.Apart.{AreApart};
ghost use Rattle.sv_subscribed.specs.Subscribed.{LeavesSubscribed};

/// Behind each turn of a run that isn't refused, whoever is subscribed to a store is a `$` name of a live instance, is so once, and at no other store than
/// the one that its variable, constant or braced import holds now. A `$` name whose name holds a store that module files made is subscribed to it.
pub fn dollar_names_are_subscribed()
    ensures { (p : Program) (events : List Event) → AreApart p → All (LeavesSubscribed p) (run p events) }
{}
