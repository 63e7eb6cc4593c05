// The reader and the grammar agree.
ghost use Rattle.sv_expr.specs.Laws.{Sound, Complete, Blamed};

/// What is read is in the grammar, within any limits.
pub fn read_is_in_the_grammar()
    ensures { Sound }
{}

/// What is in the grammar is read, within any limits, where blocks of statements leave no more than they were given.
/// So no text has two trees, and a refusal means that there is none.
pub fn grammar_is_read()
    ensures { Complete }
{}

/// Where the grammar gives a tree within wider limits, it is read or a limit is what stands in the way.
pub fn refused_for_cause()
    ensures { Blamed }
{}
