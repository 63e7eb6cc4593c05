// Laws of whole pages, on functions that do nothing.
ghost use Rattle.sv_alike.specs.Drawing.{
  FreshOnPresentViews,
  InstancesAsEvaluated,
  InstancesOnPresentViews,
  PageAsEvaluated,
  PresentViewsStand,
};

/// Where what is shown of each instance is right on its view, and the views of instances agree with those that evaluations are given, child by child,
/// each instance is drawn of what is recorded as evaluations give it, and so is the page.
pub fn page_as_evaluated()
    ensures instances { InstancesAsEvaluated }
    ensures page { PageAsEvaluated }
{}

/// On the views of the present states, which stand before each owner's, evaluations give each instance of the fresh page, and the page.
pub fn fresh_on_present_views()
    ensures stand { PresentViewsStand }
    ensures instances { InstancesOnPresentViews }
    ensures page { FreshOnPresentViews }
{}
