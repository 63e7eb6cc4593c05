// Laws of compiled programs, on functions that do nothing.
ghost use Rattle.sv_meant.specs.Meant.{CompiledMeansSource};

/// The functions of a compiled program are those of its files in turn: those of the script of each, and then those of the expressions of its markup, in
/// the order of the text, each with the names of the rows and slots round it. The script does what it says: at the top of its file, as functions are set,
/// and behind the mark of a reactive statement. The parts of a file's markup, in the order of the text and with those of its tags and handlers where these
/// stand, are made of its expressions, one by one; and each, such as a handler, has the place of its expression and the value of that, or its fault, on each
/// view that has the locals of the scopes around.
pub fn compiled_code_means_the_same()
    ensures same { CompiledMeansSource }
{}
