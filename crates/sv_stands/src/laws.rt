// Laws of the views on which component tags stand, on functions that do nothing.
ghost use Rattle.std.specs.Prelude.{◌≡◌, ℕ, List, [], map, Option, None, Ok};
ghost use Rattle.sv_code.specs.Names.{Each};
ghost use Rattle.sv_code.specs.declared.fragments.Frag.{Frag};
ghost use Rattle.sv_code.specs.declared.program.Program.{Program};
ghost use Rattle.sv_parts.specs.Sides.{Sides};
ghost use Rattle.sv_parts.specs.declared.counters.Counters.{Counters};
ghost use Rattle.sv_parts.specs.declared.state.State.{State};
ghost use Rattle.sv_parts.specs.declared.tally.Tally.{Tally};
ghost use Rattle.sv_places.specs.Fits.{Fits};
ghost use Rattle.sv_places.specs.Keeping.{parts_of};
ghost use Rattle.sv_plan.specs.Patch.{After, old_view, patched};
ghost use Rattle.sv_plan.specs.Plan.{plan_all};
ghost use Rattle.sv_shapes.specs.Places.{places_all};
ghost use Rattle.sv_shapes.specs.Showing.{Showing, shown_of};
ghost use Rattle.sv_shapes.specs.Typed.{laid_all};
ghost use Rattle.sv_shapes.specs.declared.shape.Shape.{Shape};
ghost use Rattle.sv_stands.specs.Holds.{holds};
ghost use Rattle.sv_stands.specs.Lent.{AreLent, AreMade, PlanMakes, PlanLends};
ghost use Rattle.sv_stands.specs.Standing.{OwnersFor, StandsOn};
ghost use Rattle.sv_tokens.specs.declared.element.Typed.{Typed};
ghost use Rattle.sv_view.specs.Level.{View};

/// After a plan from shapes that fit, the child of each tag is made on the view on which the tag stands; or the tag stood there before, and its child
/// is lent the view, or shows no content that looks at what moved. No other child is made, and no other view is lent. Where nothing was shown before,
/// each child is made.
pub fn tags_stay_lent()
    ensures stay { (p : Program) (tags : List (Option ℕ)) (frags : List Frag) (at : Sides) (old new : List Shape) (s s' : State) → Fits p tags frags old → plan_all p tags frags at old s ≡ Ok (new, s') → PlanLends p (holds p tags frags at.old old) (holds p tags frags at.new new) s s' }
    ensures first { (p : Program) (tags : List (Option ℕ)) (frags : List Frag) (at : Sides) (new : List Shape) (s s' : State) → plan_all p tags frags at [] s ≡ Ok (new, s') → PlanMakes (holds p tags frags at.new new) s s' }
{}

/// The same of the patch of an instance, whose tags stood on the view on which it was shown before.
pub fn patches_stay_lent()
    ensures stay { (p : Program) (tags : List (Option ℕ)) (n : ℕ) (markup : List Frag) (view : View) (page : Showing) (counters : Counters) (tally : Tally) (after : After) → Fits p tags markup (parts_of page n) → patched p tags n markup view page counters tally ≡ Ok after → AreLent p after.effects after.kept (holds p tags markup (old_view (shown_of page n) view) (parts_of page n)) (holds p tags markup view (parts_of after.showing n)) }
    ensures first { (p : Program) (tags : List (Option ℕ)) (n : ℕ) (markup : List Frag) (view : View) (page : Showing) (counters : Counters) (tally : Tally) (after : After) → shown_of page n ≡ None → patched p tags n markup view page counters tally ≡ Ok after → AreMade after.effects (holds p tags markup view (parts_of after.showing n)) }
{}

/// In shapes that fit, the places of the holds are the places of the shapes, in order.
pub fn each_place_is_held()
    ensures held { (p : Program) (tags : List (Option ℕ)) (frags : List Frag) (v : View) (shapes : List Shape) → Fits p tags frags shapes → map (λ h. h.place) (holds p tags frags v shapes) ≡ places_all shapes }
{}

/// Each tag stands on the view of the instance or of one of its owners, with its tags and in its markup, where there are owners for what the markup shows
/// of them; and there are owners for the content of the tag.
pub fn holds_stand_on_owners()
    ensures stand { (p : Program) (tags : List (Option ℕ)) (frags : List Frag) (v : View) (shapes : List Shape) → OwnersFor p frags tags v.owners → Each (StandsOn p frags tags v) (holds p tags frags v shapes) }
{}

/// A state that a user leaves changes no hold.
pub fn typing_leaves_holds()
    ensures same { (p : Program) (tags : List (Option ℕ)) (frags : List Frag) (v : View) (mark : ℕ) (typed : Typed) (shapes : List Shape) → holds p tags frags v (laid_all mark typed shapes) ≡ holds p tags frags v shapes }
{}
