// Laws of views that agree, on functions that do nothing.
ghost use Rattle.sv_agree.specs.Agreeing.{RightWhereViewsAgree};
ghost use Rattle.sv_agree.specs.Drawing.{DrawnAsEvaluated};
ghost use Rattle.sv_agree.specs.Holding.{HoldsAreClaimed};
ghost use Rattle.sv_agree.specs.Onward.{AlikeViewsAgree, StillViewsAgree, ViewsAgreeBack, ViewsAgreeInTurn};
ghost use Rattle.sv_agree.specs.Seeing.{SlotsSeeViews, TagsSeeViews};
ghost use Rattle.sv_agree.specs.Standing.{TagsStandAlike};

/// Shapes that are right on a view are right on each view that agrees with it, level by level, at what their fragments and the content in their
/// slots look at.
pub fn right_where_views_agree()
    ensures right { RightWhereViewsAgree }
{}

/// Where shapes are right on the view on which they were shown, and the present view agrees with that, the nodes that are drawn from what they hold
/// are those that evaluations give on the present view, where the children at its places are drawn alike.
pub fn drawn_as_evaluated()
    ensures same { DrawnAsEvaluated }
{}

/// On two views that agree, however deep slots stand, the same component tags are claimed to stand, each on a view that agrees with the other one at
/// what its content looks at.
pub fn tags_stand_alike()
    ensures same { TagsStandAlike }
{}

/// Beside shapes that fit, the component tags of which something is claimed, with the places that are held of them, are those that stand there, in
/// the same order and on the same views.
pub fn holds_are_claimed()
    ensures same { HoldsAreClaimed }
{}

/// Views agree at what a reading has where nothing of that moved between them, and equal versions mean equal values.
pub fn still_views_agree()
    ensures agree { StillViewsAgree }
{}

/// Where a view agrees with another one, that agrees with it.
pub fn views_agree_back()
    ensures agree { ViewsAgreeBack }
{}

/// A view that agrees with one that agrees with a third agrees with that.
pub fn views_agree_in_turn()
    ensures agree { ViewsAgreeInTurn }
{}

/// A view that agrees with another one agrees with each that gives the same values as that.
pub fn alike_views_agree()
    ensures agree { AlikeViewsAgree }
{}

/// A component in whose markup a slot stands has a cell for the owner's view, and a tag in whose content one stands looks at that cell, where each
/// `<slot>` does.
pub fn slots_see_views()
    ensures markup { SlotsSeeViews }
    ensures tags { TagsSeeViews }
{}
