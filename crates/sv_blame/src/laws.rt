// Laws on refusals, on functions that do nothing.
ghost use Rattle.sv_blame.specs.Blame.{ExpressionRefusals, ScriptRefusals, ModuleScriptRefusals, ComponentRefusals, ModuleRefusals, SourceRefusals};

/// An expression that is refused, from a place of a file where constructs may be open: the place of the refusal lies in the file, and what its kind
/// says is written there. There is no tree within the limits. Where the kind is no limit's there is none within any, and where it is a limit's each
/// tree exceeds that one.
pub fn expression_refusals()
    ensures refused { ExpressionRefusals }
{}

/// The same of the script of a component, which is a part of a file.
pub fn script_refusals()
    ensures refused { ScriptRefusals }
{}

/// The same of the script of a module.
pub fn module_script_refusals()
    ensures refused { ModuleScriptRefusals }
{}

/// The same of a component. Bytes that are no UTF-8 are refused as `NotUtf8`, and no others are.
pub fn component_refusals()
    ensures refused { ComponentRefusals }
{}

/// The same of a module.
pub fn module_refusals()
    ensures refused { ModuleRefusals }
{}

/// A file of a program of which `load` tells that it has no tree, and why: the same holds of that cause.
pub fn source_refusals()
    ensures refused { SourceRefusals }
{}
