// How places on a page nest, on a function that gives nothing.
ghost use Rattle.sv_commit.specs.Child.{IsChildPlace, IsChildAlone, IsElementPlace, IsElementAlone};

/// What a child component shows stands in the place before its anchor, and what is in an element in the place at its end. What becomes
/// of what stands there becomes of all that is shown round it.
pub fn places_nest()
    ensures child { IsChildPlace }
    ensures child_alone { IsChildAlone }
    ensures element { IsElementPlace }
    ensures element_alone { IsElementAlone }
{}
