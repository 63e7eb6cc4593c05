// The names that the scopes round a place declare.
ghost use Rattle.std.specs.Prelude.{◌≡◌, ◌++◌, IfOk};
ghost use Rattle.sv_names.specs.Distinct.{has};
ghost use Rattle.sv_names.specs.Locals as spec;

use crate::once::Distinct;
use std::alloc::Global;
use sv_ast::Ref;
use sv_base::{Name, NoMemory};
use sv_list::Items;

/// The scopes round a place that aren't the top of its file: functions and arrows, blocks, loops, rows of each blocks, and slot content with
/// its `let:` names. A clause sees it by `names_of`, the list of their names.
#[derive(Drop)]
pub enum LocalScope<'a> {
    /// At the top of a file.
    Outside,
    /// A scope that declares some names, in another.
    Inside {
        outer: &'a LocalScope<'a>,
        names: &'a Distinct,
    },
}

impl<'a> LocalScope<'a> {
    /// A scope that declares some names, in another.
    pub fn inside(outer: &'a LocalScope<'a>, names: &'a Distinct) -> LocalScope<'a>
        ensures { spec.names_of result ≡ names.now ++ spec.names_of outer.now }
    {
        LocalScope::Inside { outer, names }
    }
}

/// Whether one of the scopes declares a name.
#[tactic(auto, using(crate::proofs::Append::has_append))]
pub fn is_local(locals: &LocalScope<'_>, name: Ref) -> bool
    ensures { result ≡ has name (spec.names_of locals.now) }
{
    match locals {
        LocalScope::Outside => false,
        LocalScope::Inside { outer, names } => names.has(name) || is_local(outer, name),
    }
}

/// The name that is written, behind the `$` of a store name.
pub fn name_of(name: Ref) -> Name
    ensures { result ≡ spec.name_of name }
{
    match name {
        Ref::Plain(name) | Ref::Store(name) => name,
    }
}

/// The locals among some names, in their order. `NoMemory` comes only where memory runs out.
pub fn locals_among(
    alloc: Global,
    locals: &LocalScope<'_>,
    names: &[Ref],
) -> Result<Items<Name>, NoMemory>
    ensures { IfOk result (λ own. own ≡ spec.locals_among (spec.names_of locals.now) names.now) }
{
    let mut own = Items::new(alloc);
    for name in names {
        if is_local(locals, *name) {
            own.push(name_of(*name))?;
        }
    }
    Ok(own)
}
