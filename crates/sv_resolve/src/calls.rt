// The public calls.
ghost use Rattle.std.specs.Prelude.{◌≡◌, [], IfOk, IfErr, OnOk};
ghost use Rattle.sv_resolve.specs.Cells as cells;
ghost use Rattle.sv_resolve.specs.Earliest.{IsFirst, IsCause};
ghost use Rattle.sv_resolve.specs.Mistakes.{mistakes};
ghost use Rattle.sv_scopes.specs.Files.{component_scopes, module_scopes};

use crate::cells::{Scopes, scopes_of};
use crate::mistakes::{
    find_captured, find_constants, find_constants_in, find_twice, find_twice_in, find_unknown,
};
use crate::refusals::{CheckError, CheckRefusal};
use std::alloc::Global;
use sv_ast::{Component, Script};
use sv_base::{Names, NoMemory};
use sv_scopes::{FileScopes, scopes_of_component, scopes_of_module};

/// The first mistake that the scopes of a file show, of those that concern its names alone: the one that begins first, and of
/// two that begin at one place that of the earlier kind. `names` are those with which the file was read. There is none exactly
/// where the scopes show no mistake; `NoMemory` comes only where memory runs out.
///
/// - `DeclaredTwice`: at a name that its scope has declared before (ECMA-262, 14.2.1), and at each declaration of `Math`.
/// - `UnknownName`: at a name that no scope declares and that isn't called as `String`, `Boolean`, `console.log` or a function of
///   `Math` that the language has; at a tag's name that no import without braces gives; at the name of such an import where
///   it isn't a tag's. Store names are none of these.
/// - `AssignConst`: at an assignment to a name that `const`, `function` or an import declares (ECMA-262, 9.1.1.1.5).
/// - `CapturedAssign`: at an assignment to a name that another scope than the top level declares, where the name also stands
///   free in an arrow in that scope: arrows take the values of such names along.
pub fn first_mistake(
    alloc: Global,
    names: &Names,
    file: &FileScopes,
) -> Result<Option<CheckRefusal>, NoMemory>
    ensures { IfOk result (λ first. IsFirst first (mistakes names.now file.now)) }
{
    let mut first = None;
    let inside = file.inside.as_slice();
    find_twice(alloc, &mut first, names, inside)?;
    find_twice_in(alloc, &mut first, names, &file.top)?;
    find_unknown(alloc, &mut first, names, &file.top)?;
    find_constants(alloc, &mut first, inside)?;
    find_constants_in(alloc, &mut first, &file.top)?;
    find_captured(alloc, &mut first, inside)?;
    Ok(first)
}

/// Where each name of a component's top level is: its cells and its constants. `names` are those with which the component was
/// read. It is refused exactly where its scopes show a mistake, with the first; `NoMemory` comes only where memory runs out.
pub fn resolve(alloc: Global, names: &Names, c: &Component) -> Result<Scopes, CheckError>
    ensures clean { OnOk result (mistakes names.now (component_scopes c.now) ≡ []) }
    ensures scopes { IfOk result (λ scopes. scopes ≡ cells.scopes (component_scopes c.now).top) }
    ensures refused { IfErr result (IsCause (mistakes names.now (component_scopes c.now))) }
{
    let file = scopes_of_component(alloc, c)?;
    match first_mistake(alloc, names, &file)? {
        Some(refusal) => Err(CheckError::Refused(refusal)),
        None => Ok(scopes_of(alloc, &file.top)?),
    }
}

/// Whether the scopes of a module, of which the script is given, show no mistake.
pub fn resolve_module(alloc: Global, names: &Names, s: &Script) -> Result<(), CheckError>
    ensures clean { OnOk result (mistakes names.now (module_scopes s.now) ≡ []) }
    ensures refused { IfErr result (IsCause (mistakes names.now (module_scopes s.now))) }
{
    let file = scopes_of_module(alloc, s)?;
    match first_mistake(alloc, names, &file)? {
        Some(refusal) => Err(CheckError::Refused(refusal)),
        None => Ok(()),
    }
}
