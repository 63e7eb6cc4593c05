// Laws of places and marks, on functions that do nothing.
ghost use Rattle.std.specs.Prelude.{◌≡◌, ℕ, List, [], Option, Ok};
ghost use Rattle.sv_code.specs.declared.fragments.Frag.{Frag};
ghost use Rattle.sv_code.specs.declared.program.Program.{Program};
ghost use Rattle.sv_parts.specs.Sides.{Sides};
ghost use Rattle.sv_parts.specs.declared.counters.Counters.{Counters};
ghost use Rattle.sv_parts.specs.declared.state.Effect.{Effect};
ghost use Rattle.sv_parts.specs.declared.state.State.{State};
ghost use Rattle.sv_parts.specs.declared.tally.Tally.{Tally};
ghost use Rattle.sv_places.specs.Fits.{Fits, fits_all};
ghost use Rattle.sv_places.specs.Keeping.{Follows, Gives, Patches, parts_of};
ghost use Rattle.sv_places.specs.Numbers.{AreGivenOnce, numbers_all};
ghost use Rattle.sv_plan.specs.Patch.{After, patched};
ghost use Rattle.sv_plan.specs.Plan.{plan_all};
ghost use Rattle.sv_shapes.specs.Places.{places_all};
ghost use Rattle.sv_shapes.specs.Showing.{Showing};
ghost use Rattle.sv_shapes.specs.Typed.{laid_all};
ghost use Rattle.sv_shapes.specs.declared.shape.Shape.{Shape};
ghost use Rattle.sv_tokens.specs.declared.element.Typed.{Typed};
ghost use Rattle.sv_view.specs.Level.{View};

/// A plan from shapes that fit its fragments, as no shapes do, makes shapes that fit them. Each child that was there or is made stands there
/// afterwards or goes; each place there stays or is new; what is set stays; and each number that is new is given once.
pub fn plans_lose_no_child()
    ensures nothing { (p : Program) (tags : List (Option ℕ)) (frags : List Frag) → Fits p tags frags [] }
    ensures fits { (p : Program) (tags : List (Option ℕ)) (frags : List Frag) (at : Sides) (old new : List Shape) (s s' : State) → Fits p tags frags old → plan_all p tags frags at old s ≡ Ok (new, s') → Fits p tags frags new }
    ensures follows { (p : Program) (tags : List (Option ℕ)) (frags : List Frag) (at : Sides) (old new : List Shape) (s s' : State) → Fits p tags frags old → plan_all p tags frags at old s ≡ Ok (new, s') → Follows old new s s' }
{}

/// The same of the patch of an instance.
pub fn patches_lose_no_child()
    ensures patch { (p : Program) (tags : List (Option ℕ)) (n : ℕ) (markup : List Frag) (view : View) (page : Showing) (counters : Counters) (tally : Tally) (after : After) → Fits p tags markup (parts_of page n) → patched p tags n markup view page counters tally ≡ Ok after → Patches p tags n markup page counters.next after }
{}

/// Where no number stood twice and each lay below the next one, it is so afterwards.
pub fn numbers_stay_given_once()
    ensures once { (old new : List ℕ) (effects : List Effect) (from to : ℕ) → Gives old new effects from to → AreGivenOnce old from → AreGivenOnce new to }
{}

/// A state that a user leaves changes no place, no mark and no key.
pub fn typing_leaves_places()
    ensures places { (mark : ℕ) (typed : Typed) (parts : List Shape) → places_all (laid_all mark typed parts) ≡ places_all parts }
    ensures numbers { (mark : ℕ) (typed : Typed) (parts : List Shape) → numbers_all (laid_all mark typed parts) ≡ numbers_all parts }
    ensures fits { (p : Program) (tags : List (Option ℕ)) (frags : List Frag) (mark : ℕ) (typed : Typed) (parts : List Shape) → fits_all p tags frags (laid_all mark typed parts) ≡ fits_all p tags frags parts }
{}
