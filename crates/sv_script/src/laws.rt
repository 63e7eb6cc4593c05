// The reader and the grammar agree.
ghost use Rattle.sv_expr.specs.Limits.{Limits};
ghost use Rattle.sv_script.specs.Closed.{IsClosed, ScriptAt, ModuleAt};
ghost use Rattle.sv_script.specs.Laws.{arrow_block, read_expression, IsExpression, Sound, Complete, Blamed};
ghost use Rattle.sv_script.specs.Script.{component, file_module};

/// The blocks of arrows that are read are those of the grammar, within any limits.
pub fn arrow_blocks_are_closed()
    ensures { (limits : Limits) → IsClosed limits (arrow_block limits) }
{}

/// What is read of a component's script is in the grammar, within any limits, and what is in the grammar is read. So no
/// text has two trees, and a refusal means that there is none. Where the grammar gives a tree within wider limits, it is
/// read or a limit is what stands in the way.
pub fn scripts_are_read()
    ensures sound { Sound component ScriptAt }
    ensures complete { Complete component ScriptAt }
    ensures cause { Blamed component ScriptAt }
{}

/// The same of modules.
pub fn modules_are_read()
    ensures sound { Sound file_module ModuleAt }
    ensures complete { Complete file_module ModuleAt }
    ensures cause { Blamed file_module ModuleAt }
{}

/// The same of expressions, with any room for constructs.
pub fn expressions_are_read()
    ensures sound { Sound read_expression IsExpression }
    ensures complete { Complete read_expression IsExpression }
    ensures cause { Blamed read_expression IsExpression }
{}
