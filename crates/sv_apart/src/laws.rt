// Laws of compiled programs, each on a function that does nothing.
ghost use Rattle.std.specs.List.{All};
ghost use Rattle.std.specs.Prelude.{ℕ, List};
ghost use Rattle.sv_ast.specs.declared.files.Bundle.{Bundle};
ghost use Rattle.sv_check.specs.declared.checked.CheckedComponent.{CheckedComponent};
ghost use Rattle.sv_check.specs.Checked.{IsClean, AreChecked};
ghost use Rattle.sv_compile.specs.Compile.{program};
ghost use Rattle.sv_events.specs.declared.event.Event.{Event};
ghost use Rattle.sv_page.specs.Run.{run};
ghost use Rattle.sv_subscribed.specs.Apart.{AreApart};
ghost use Rattle.sv_subscribed.specs.Subscribed.{LeavesSubscribed};

use sv_subscribed::dollar_names_are_subscribed;

/// What a program without mistakes is compiled to has its `$` names apart: in each component no two have one cell, no two look at one variable or constant
/// and none at another's store, and each declaration tells the `$` name of what it declares.
pub fn compiled_programs_are_apart()
    ensures { (bundle : Bundle) (told : List CheckedComponent) (modules : List ℕ) → IsClean bundle → AreChecked bundle told → AreApart (program bundle told modules) }
{}

/// So behind each turn of a run of such a program that isn't refused whoever is subscribed to a store is a `$` name of a live instance, and is so at no
/// other store than the one that its variable, constant or braced import holds now. A `$` name whose name holds a store that module files made is
/// subscribed to it.
pub fn compiled_names_are_subscribed()
    ensures { (bundle : Bundle) (told : List CheckedComponent) (modules : List ℕ) (events : List Event) → IsClean bundle → AreChecked bundle told
        → All (LeavesSubscribed (program bundle told modules)) (run (program bundle told modules) events) }
{
    compiled_programs_are_apart();
    dollar_names_are_subscribed();
}
