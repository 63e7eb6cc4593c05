// The names that rows and slot content declare.
ghost use Rattle.std.specs.Prelude.{◌≡◌, map, IfOk};
ghost use Rattle.sv_deps.specs.Looks.{let_names as spec_let_names, row_names as spec_row_names};

use std::alloc::Global;
use sv_ast::Ref;
use sv_base::{Name, NoMemory};
use sv_code::LetName;
use sv_names::Distinct;

/// The names of a row, each once.
pub(crate) fn row_names(
    alloc: Global,
    item: Name,
    index: Option<Name>,
) -> Result<Distinct, NoMemory>
    ensures { IfOk result (λ names. names ≡ spec_row_names item index) }
{
    let mut names = Distinct::new(alloc);
    names.add(Ref::Plain(item))?;
    if let Some(index) = index {
        names.add(Ref::Plain(index))?;
    }
    Ok(names)
}

/// The names that slot props have in content, each once.
pub(crate) fn let_names(alloc: Global, lets: &[LetName]) -> Result<Distinct, NoMemory>
    ensures { IfOk result (λ names. names ≡ spec_let_names lets.now) }
{
    let mut names = Distinct::new(alloc);
    for name in lets {
        names.add(Ref::Plain(name.local))?;
    }
    Ok(names)
}
