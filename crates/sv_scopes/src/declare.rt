// What a form declares in the scope that it stands in.
ghost use Rattle.std.specs.Prelude.{◌≡◌, [], ◌∷◌, map, OnOk};
ghost use Rattle.std.specs.Option.{option_to_list};
ghost use Rattle.sv_scopes.specs.Parts.{Finds, declaring};
ghost use Rattle.sv_scopes.specs.Script.{declared, locals, imported};

use crate::found::Found;
use crate::scope::{Binding, Declared};
use sv_ast::{Import, ImportName, Named};
use sv_base::NoMemory;

/// Notes that a name is declared.
pub(crate) fn declare(found: &mut Found, name: &Named, by: Binding) -> Result<(), NoMemory>
    ensures { OnOk result (Finds found.old found.new (declaring (declared by name.now ∷ []))) }
{
    found.declare(Declared {
        name: name.name,
        span: name.span,
        by,
    })
}

/// Notes parameters.
pub(crate) fn declare_all(found: &mut Found, names: &[Named]) -> Result<(), NoMemory>
    ensures { OnOk result (Finds found.old found.new (locals names.now)) }
{
    for name in names {
        declare(found, name, Binding::Local)?;
    }
    Ok(())
}

/// Notes a name that may be absent, as the index of a row.
pub(crate) fn declare_index(found: &mut Found, index: &Option<Named>) -> Result<(), NoMemory>
    ensures { OnOk result (Finds found.old found.new (locals (option_to_list index.now))) }
{
    match index {
        Some(index) => declare(found, index, Binding::Local),
        None => Ok(()),
    }
}

/// Notes what an import declares.
pub(crate) fn declare_import(found: &mut Found, import: &Import) -> Result<(), NoMemory>
    ensures { OnOk result (Finds found.old found.new (declaring (imported import.now))) }
{
    if let Some(whole) = &import.whole {
        declare(found, whole, Binding::Component)?;
    }
    declare_specs(found, import.names.as_slice())
}

fn declare_specs(found: &mut Found, specs: &[ImportName]) -> Result<(), NoMemory>
    ensures { OnOk result (Finds found.old found.new (declaring (map (λ spec. declared Binding.Import spec.local) specs.now))) }
{
    for spec in specs {
        declare(found, &spec.local, Binding::Import)?;
    }
    Ok(())
}
