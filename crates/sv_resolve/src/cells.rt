// The cells of a component, and its constants.
ghost use Rattle.std.specs.Prelude.{◌≡◌, ◌++◌, IfOk, OnOk};
ghost use Rattle.sv_names.specs.Distinct.{same_ref};
ghost use Rattle.sv_resolve.specs.Cells as spec;

use std::alloc::Global;
use sv_ast::{Ref, RefList};
use sv_base::NoMemory;
use sv_names::Distinct;
use sv_scopes::{Binding, Declared, Scope, Use, VIEW};

/// The names of a component's top level.
#[derive(Drop)]
pub struct Scopes {
    /// What can change, by number: the variables in the order of their declarations, then the store names that are used,
    /// by first appearance, and last `VIEW`, where there is a `<slot>`.
    pub cells: RefList,
    /// The other names that are declared, in order.
    pub constants: RefList,
}

/// The names of a top level: its cells and its constants. `NoMemory` comes only where memory runs out.
pub fn scopes_of(alloc: Global, top: &Scope) -> Result<Scopes, NoMemory>
    ensures { IfOk result (λ scopes. scopes ≡ spec.scopes top.now) }
{
    let mut scopes = Scopes {
        cells: RefList::new(alloc),
        constants: RefList::new(alloc),
    };
    add_declared(&mut scopes, top.declares.as_slice())?;
    add_stores(alloc, &mut scopes.cells, top.uses.as_slice())?;
    if uses_view(top.uses.as_slice()) {
        scopes.cells.push(VIEW)?;
    }
    Ok(scopes)
}

fn add_declared(scopes: &mut Scopes, declares: &[Declared]) -> Result<(), NoMemory>
    ensures cells { OnOk result (scopes.new.cells ≡ scopes.old.cells ++ spec.variables declares.now) }
    ensures constants { OnOk result (scopes.new.constants ≡ scopes.old.constants ++ spec.constants declares.now) }
{
    for declared in declares {
        let name = Ref::Plain(declared.name);
        if is_variable(declared.by) {
            scopes.cells.push(name)?;
        } else {
            scopes.constants.push(name)?;
        }
    }
    Ok(())
}

/// Whether what is declared so is a variable.
pub fn is_variable(by: Binding) -> bool
    ensures { result ≡ spec.is_variable by }
{
    matches!(by, Binding::Let | Binding::Export | Binding::Reactive)
}

fn add_stores(alloc: Global, cells: &mut RefList, uses: &[Use]) -> Result<(), NoMemory>
    ensures { OnOk result (cells.new ≡ cells.old ++ spec.stores uses.now) }
{
    let mut known = Distinct::new(alloc);
    for found in uses {
        if is_store(found.name) && !known.has(found.name) {
            known.add(found.name)?;
            cells.push(found.name)?;
        }
    }
    Ok(())
}

/// Whether a name is that of a store, and not of the owner's view.
pub fn is_store(name: Ref) -> bool
    ensures { result ≡ spec.is_store name }
{
    match name {
        Ref::Store(_) => !is_view(name),
        Ref::Plain(_) => false,
    }
}

fn uses_view(uses: &[Use]) -> bool
    ensures { result ≡ spec.uses_view uses.now }
{
    uses.iter().any(|found| is_view(found.name))
}

/// Whether a name is that of the owner's view.
pub fn is_view(name: Ref) -> bool
    ensures { result ≡ same_ref name VIEW }
{
    name == VIEW
}
