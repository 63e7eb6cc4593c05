// Laws on tokens.
ghost use Rattle.sv_lex.specs.Laws.{ReadsOn, LongestSign};

/// White space, names and texts are read as far as they go: behind them stands no further piece.
pub fn pieces_are_read_on()
    ensures { ReadsOn }
{}

/// A sign is the longest that stands there: where one of one byte is read, none of two or three begins, and where one
/// of two is read, none of three.
pub fn signs_are_the_longest()
    ensures { LongestSign }
{}
