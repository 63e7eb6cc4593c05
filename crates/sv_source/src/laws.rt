// Laws of what trees mean, on functions that do nothing.
ghost use Rattle.sv_source.specs.Laws.{SameExpressions, SameStatements, SameCalls, SameScripts, SameParts};

/// The code of an expression does what its tree does, with each name looked up when it is read, wherever the names that are open are those that the
/// scopes around declare: it gives the same value, leaves the same, or has the same fault at the same place. The values of arrows are the same values.
pub fn expressions_mean_the_same()
    ensures same { SameExpressions }
{}

/// The code of statements does what they do in turn.
pub fn statements_mean_the_same()
    ensures same { SameStatements }
{}

/// A call of a function by its number does what the function does that is written there, however many calls may be open.
pub fn calls_mean_the_same()
    ensures same { SameCalls }
{}

/// A script does at the top of its file what its statements do there: what they declare, and the functions that they set; and a reactive statement does
/// what stands behind its mark.
pub fn scripts_mean_the_same()
    ensures same { SameScripts }
{}

/// A part of markup, such as a handler, has the value of its tree, or its fault.
pub fn parts_mean_the_same()
    ensures same { SameParts }
{}
