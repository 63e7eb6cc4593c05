// The public call.
ghost use Rattle.std.specs.Prelude.{◌≡◌, ℕ, ◌<◌, [], length, IfOk, IfErr, OnOk};
ghost use Rattle.sv_check.specs.Checked.{IsClean, IsCause, AreChecked};
ghost use Rattle.sv_check.specs.Found.{AreFound};
ghost use Rattle.sv_check.specs.Mistakes.{AreMistakes};

use crate::checked::{Checked, CheckedComponent};
use crate::file::check_file;
use crate::found::{Found, find_all};
use std::alloc::Global;
use sv_ast::Bundle;
use sv_list::Items;
use sv_resolve::CheckError;

/// Looks for the mistakes of a program: its files, in the order in which they were read with the names of the bundle. It is refused
/// exactly where it has one, with the first: the first by file, then by place, and of those that begin at one place by kind, in the order of
/// `CheckKind`. `NoMemory` comes where memory runs out, of a number below 2^32 for files, functions, statements or names, or of one below 2^16
/// for the file of a mistake.
///
/// - `ImportCycle`: an import of a file from which imports lead to this one, itself included; at the import.
/// - `UnknownImport`: a name between the braces of an import that the module, `svelte` or `svelte/store` doesn't give; at the name.
/// - `DeclaredTwice`, `UnknownName`, `AssignConst`, `CapturedAssign`: as `sv_resolve::first_mistake` says.
/// - `BadStore`: `$x` in a module, or where `x` is no variable of the component, no `const` of its top and no import between braces; at the name.
/// - `BadLifecyclePlace`: a function of `svelte` that isn't called as a whole statement at a component's top level or as the whole value of a
///   name that it declares; at the name.
/// - `BadDerived`: `derived` of `svelte/store` that isn't called, as the whole value of a constant at the top of a file, with two arguments of
///   which the second is an arrow of one parameter or the name of a function of one parameter at the top of the file, with a body that
///   does nothing that that of a pure function may not; at the name.
/// - `ImpureMarkup`: an expression of markup that isn't pure, as `sv_purity::is_pure` says; at its first impure call or assignment.
/// - `UnknownProp`: an attribute of a component's tag that the component doesn't declare by `export let`; at the attribute.
/// - `UnknownSlot`: content of a component's tag for a slot that the component hasn't, or for one that has content before; at its first
///   node.
/// - `BadBind`: a `bind:` of what is no cell, on an element where it may not stand, or of no prop of a component; at the directive.
/// - `TooManyNames`: more than 248 cells; at the 249th name.
/// - `ReactiveCycle`: reactive statements that wait for one another, where one that assigns a variable `x` with a `$x` assigns that too; at the
///   first that lies on any cycle.
pub fn check<'a>(alloc: Global, bundle: &'a Bundle) -> Result<Checked<'a>, CheckError>
    ensures clean { OnOk result (IsClean bundle.now) }
    ensures bundle { IfOk result (λ checked. checked.bundle.now ≡ bundle.now) }
    ensures checked { IfOk result (λ checked. AreChecked bundle.now checked.components) }
    ensures refused { IfErr result (IsCause bundle.now) }
{
    let found = find_all(alloc, bundle)?;
    let components = check_files(alloc, bundle, &found)?;
    Ok(Checked { bundle, components })
}

fn check_files(
    alloc: Global,
    bundle: &Bundle,
    found: &Found,
) -> Result<Items<CheckedComponent>, CheckError>
    requires { AreFound bundle.now found.now }
    ensures clean { OnOk result ((n : ℕ) → n < length bundle.now.files → AreMistakes bundle.now found.now.cycles found.now.pure n []) }
    ensures checked { IfOk result (AreChecked bundle.now) }
    ensures refused { IfErr result (IsCause bundle.now) }
{
    let mut components = Items::new(alloc);
    for (n, source) in bundle.files.as_slice().iter().enumerate() {
        let checked = check_file(alloc, bundle, found, n, source)?;
        if components.push(checked).is_err() {
            return Err(CheckError::NoMemory);
        }
    }
    Ok(components)
}
