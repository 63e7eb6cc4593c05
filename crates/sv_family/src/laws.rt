// Laws of pages, on functions that do nothing.
ghost use Rattle.std.specs.List.{All};
ghost use Rattle.std.specs.Prelude.{◌≡◌, ℕ, List, Some, Bool};
ghost use Rattle.sv_code.specs.Compiled.{IsCompiled};
ghost use Rattle.sv_code.specs.Content.{AreContentsSeen};
ghost use Rattle.sv_code.specs.Names.{Each};
ghost use Rattle.sv_code.specs.declared.program.Program.{Program};
ghost use Rattle.sv_document.specs.declared.tree.Node.{Node};
ghost use Rattle.sv_events.specs.declared.event.Event.{Event};
ghost use Rattle.sv_family.specs.Family.{HasChild, IsFamily, LeavesFamily, StandsIn, holds_in};
ghost use Rattle.sv_family.specs.Kin.{kins, parent_at};
ghost use Rattle.sv_flush.specs.Creation.{mounted};
ghost use Rattle.sv_flush.specs.Flush.{flushed};
ghost use Rattle.sv_flush.specs.Outcome.{Done};
ghost use Rattle.sv_flush.specs.Page.{blank};
ghost use Rattle.sv_flush.specs.declared.page.Page.{Page};
ghost use Rattle.sv_page.specs.Run.{run};
ghost use Rattle.sv_page.specs.Turns.{first_turn, next_turn};
ghost use Rattle.sv_shapes.specs.Showing.{child_at, shown_of};
ghost use Rattle.sv_shapes.specs.declared.shown.Shown.{Shown};

/// The instances of a blank page, which has none, stand as they should; and for a compiled program so they do again where mounting, a flush or a turn
/// isn't refused.
pub fn pages_keep_families()
    ensures blank { (p : Program) → IsFamily p blank }
    ensures mounting { (p : Program) (m n : Page) → IsCompiled p → AreContentsSeen p → IsFamily p m → mounted p m ≡ Done tt n → IsFamily p n }
    ensures flushing { (p : Program) (m n : Page) → IsCompiled p → AreContentsSeen p → IsFamily p m → flushed p m ≡ Done tt n → IsFamily p n }
    ensures first { (p : Program) (m n : Page) (target : Bool) → IsCompiled p → AreContentsSeen p → IsFamily p m → first_turn p m ≡ Done target n → IsFamily p n }
    ensures next { (p : Program) (event : Event) (nodes : List Node) (m n : Page) (target : Bool) → IsCompiled p → AreContentsSeen p → IsFamily p m → next_turn p event nodes m ≡ Done target n → IsFamily p n }
{}

/// Behind each turn of a run that isn't refused the instances of the page stand as they should.
pub fn families_stand_in_runs()
    ensures { (p : Program) (events : List Event) → IsCompiled p → AreContentsSeen p → All (LeavesFamily p) (run p events) }
{}

/// Where instances stand as they should, each that has a parent stands at a place, which stands once in what the parent shows; and at no other place.
/// And at the place of each tag in what is shown, whose file is a component, a child stands.
pub fn each_instance_stands_once()
    ensures stands { (p : Program) (m : Page) (n q : ℕ) → IsFamily p m → parent_at (kins m.world.states) n ≡ Some q → StandsIn m.showing q n }
    ensures once { (p : Program) (m : Page) (a b n : ℕ) → IsFamily p m → child_at m.showing a ≡ Some n → child_at m.showing b ≡ Some n → a ≡ b }
    ensures filled { (p : Program) (m : Page) (q : ℕ) (x : Shown) → IsFamily p m → shown_of m.showing q ≡ Some x → Each (HasChild p m.showing) (holds_in p (kins m.world.states) q x) }
{}
