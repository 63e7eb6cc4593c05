// Laws of streams, each on a function that does nothing.
ghost use Rattle.sv_wire.specs.StreamLaws.{IsOneSpelling, TellsSpelled, TellsNothing, TellsEnd, IsCutAnywhere, IsToldAsSpelled};

/// No two items have one spelling, and no spelling begins another.
#[tactic(auto, using(crate::proofs::StreamLaws::one_spelling))]
pub fn one_spelling()
    ensures { IsOneSpelling }
{}

/// The head and the spellings of items, none of which is the end, tell these items with their offsets, and then what follows.
#[tactic(auto, using(crate::proofs::StreamLaws::tells_spelled))]
pub fn tells_spelled()
    ensures { TellsSpelled }
{}

/// No bytes tell nothing.
#[tactic(auto, using(crate::proofs::StreamLaws::tells_nothing))]
pub fn tells_nothing()
    ensures { TellsNothing }
{}

/// The spelling of the end tells that the stream ended.
#[tactic(auto, using(crate::proofs::StreamLaws::tells_end))]
pub fn tells_end()
    ensures { TellsEnd }
{}

/// However bytes are cut, they tell the same.
#[tactic(auto, using(crate::proofs::StreamLaws::cut_anywhere))]
pub fn cut_anywhere()
    ensures { IsCutAnywhere }
{}

/// What bytes tell is what they spell: they begin with the spellings of the items.
#[tactic(auto, using(crate::proofs::StreamLaws::told_as_spelled))]
pub fn told_as_spelled()
    ensures { IsToldAsSpelled }
{}
