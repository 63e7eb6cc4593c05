// The reader and the grammar agree.
ghost use Rattle.sv_markup.specs.Files.{top};
ghost use Rattle.sv_markup.specs.Grammar.{TopAt};
ghost use Rattle.sv_script.specs.Laws.{Sound, Complete, Blamed};

/// What is read of a component is in the grammar, within any limits, and what is in the grammar is read. So no text has two
/// trees, and a refusal means that there is none. Where the grammar gives a tree within other limits, it is read or a limit
/// is what stands in the way.
pub fn components_are_read()
    ensures sound { Sound top TopAt }
    ensures complete { Complete top TopAt }
    ensures cause { Blamed top TopAt }
{}
