// Laws of shapes, on functions that do nothing.
ghost use Rattle.sv_right.specs.Drawing.{HoldsWhatEvaluates};
ghost use Rattle.sv_right.specs.Staying.{FirstIsRight, LeavingStaysRight, PatchesStayRight, TagsGoOn};

/// The first patch of an instance leaves a shape that is right on its view, whose numbers were given before the next one.
pub fn first_is_right()
    ensures right { FirstIsRight }
{}

/// A patch of a shape that is right on the old view leaves one that is right on the new view, where that is later. The numbers in it were given
/// before the next one, if so were those in the old shape. Each component tag stands at a new place, or where it stood before, on a later view.
pub fn patches_stay_right()
    ensures right { PatchesStayRight }
    ensures later { TagsGoOn }
{}

/// A shape stays right when a user leaves a state in an element.
pub fn leaving_stays_right()
    ensures right { LeavingStaysRight }
{}

/// Of a right shape the nodes that are drawn from what it holds are those that evaluations give, where the children at its places are drawn alike.
pub fn holds_what_evaluates()
    ensures same { HoldsWhatEvaluates }
{}
