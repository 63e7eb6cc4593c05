// What the top level of a file declares.
ghost use Rattle.std.specs.Prelude.{◌≡◌, filter, not, IfOk};
ghost use Rattle.sv_names.specs.Distinct.{firsts};
ghost use Rattle.sv_scopes.specs.Files as spec;
ghost use Rattle.sv_scopes.specs.Parts.{names_of};

use crate::scope::{Binding, Declared};
use std::alloc::Global;
use sv_ast::Ref;
use sv_base::NoMemory;
use sv_list::Items;
use sv_names::Distinct;

/// What is declared at the top level: by reactive statements only what no other form declares, each name once.
pub(crate) fn settle(alloc: Global, declares: &[Declared]) -> Result<Items<Declared>, NoMemory>
    ensures { IfOk result (λ top. top ≡ spec.settled declares.now) }
{
    let mut known = known_names(alloc, declares)?;
    let mut top = Items::new(alloc);
    for declared in declares {
        let name = Ref::Plain(declared.name);
        if !(is_reactive(declared) && known.has(name)) {
            top.push(*declared)?;
        }
        known.add(name)?;
    }
    Ok(top)
}

// The names that are declared by other forms than reactive statements.
fn known_names(alloc: Global, declares: &[Declared]) -> Result<Distinct, NoMemory>
    ensures { IfOk result (λ known. known ≡ spec.known declares.now) }
{
    let mut known = Distinct::new(alloc);
    for declared in declares {
        if !is_reactive(declared) {
            known.add(Ref::Plain(declared.name))?;
        }
    }
    Ok(known)
}

fn is_reactive(declared: &Declared) -> bool
    ensures { result ≡ spec.is_reactive declared.now.by }
{
    matches!(declared.by, Binding::Reactive)
}
