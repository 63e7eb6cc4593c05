// Laws of the first page, on functions that do nothing.
ghost use Rattle.sv_first.specs.First.{FirstPageIsSeen};

/// When the module files ran and the root was made with all below it, the page that is recorded is the one that evaluations give, each instance on the
/// cells on which it was shown, before the levels of the view on which its tag stands. These cells are those that its last snapshot saw, as mounting
/// promises.
pub fn first_page_is_seen()
    ensures seen { FirstPageIsSeen }
{}
