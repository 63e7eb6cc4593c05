// The heads of loops, and declared names.
ghost use Rattle.std.specs.Prelude.{◌≡◌, [], ◌∷◌, map, IfOk};
ghost use Rattle.sv_lower.specs.Lower as spec;
ghost use Rattle.sv_names.specs.Locals.{name_of};
ghost use Rattle.sv_names.specs.Uses.{named, head_of};

use std::alloc::Global;
use sv_ast::{Named, Ref, Stmt};
use sv_base::NoMemory;
use sv_code::{Known, Locals};
use sv_names::{Distinct, head_scope};

/// The names that the head of a `for` declares, as a scope and as a list.
#[derive(Drop)]
pub(crate) struct HeadFrame {
    pub(crate) names: Distinct,
    pub(crate) declares: Locals,
}

/// Those of the head of a `for`.
pub(crate) fn head_frame(alloc: Global, first: &Option<Stmt>) -> Result<HeadFrame, NoMemory>
    ensures { IfOk result (λ frame. frame ≡ record { names = head_of first.now; declares = map name_of (head_of first.now) }) }
{
    let names = head_scope(alloc, first)?;
    let declares = names.to_names(alloc)?;
    Ok(HeadFrame { names, declares })
}

/// The scope of a `for .. of`.
pub(crate) fn row_scope(alloc: Global, name: Named) -> Result<Distinct, NoMemory>
    ensures { IfOk result (λ names. names ≡ named name ∷ []) }
{
    let mut names = Distinct::new(alloc);
    names.add(Ref::Plain(name.name))?;
    Ok(names)
}

/// The cell of a store, where a cell or a constant at the top holds it.
pub(crate) fn store_of(target: Known, value: Known) -> Option<u8>
    ensures { result ≡ spec.store_of target value }
{
    match (target, value) {
        (Known::Cell(_) | Known::Constant(_), Known::Cell(cell)) => Some(cell),
        _ => None,
    }
}
