// The names that some statement assigns, by number.
ghost use Rattle.std.specs.Prelude.{◌≡◌, ℕ, IfOk, OnOk, true, position};
ghost use Rattle.sv_names.specs.Distinct.{same_ref, has};
ghost use Rattle.sv_order.specs.ReactiveOrder.{sets_of};
ghost use Rattle.sv_order.specs.Points.{KnowsAll, Keeps};

use crate::reads::Reads;
use indexmap::IndexSet;
use std::alloc::Global;
use sv_ast::Ref;
use sv_base::NoMemory;

/// The names that some statement assigns, in the order in which they are first seen.
pub(crate) fn assigned_names(alloc: Global, list: &[Reads]) -> Result<IndexSet<Ref>, NoMemory>
    ensures { IfOk result (λ names. KnowsAll list.now names.keys) }
{
    let mut names = IndexSet::new(alloc);
    for statement in list {
        add_names(&mut names, statement.sets.as_slice())?;
    }
    Ok(names)
}

// Adds names to others.
fn add_names(names: &mut IndexSet<Ref>, more: &[Ref]) -> Result<(), NoMemory>
    ensures { OnOk result (Keeps names.old.keys more.now names.new.keys) }
{
    for name in more {
        names.insert(*name)?;
    }
    Ok(())
}

/// The number of a name, where some statement assigns it.
pub(crate) fn number_of(names: &IndexSet<Ref>, name: Ref) -> Option<usize>
    ensures { result ≡ position (same_ref name) names.now.keys }
{
    names.get_index_of(&name)
}
