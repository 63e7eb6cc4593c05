// Laws of the definitions, each on a function that does nothing.
ghost use Rattle.sv_compile.specs.Laws.{IsOneProgram, IsOneOrder};

/// What is told of a checked program is told in one way, so that it is compiled to one program.
pub fn one_program()
    ensures { IsOneProgram }
{}

/// The module files of a program without mistakes run in one order: none of its imports are part of a cycle.
pub fn one_order()
    ensures { IsOneOrder }
{}
