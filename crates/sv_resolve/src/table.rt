// What a scope declares, by what may be done with it.
ghost use Rattle.std.specs.Prelude.{◌≡◌, [], ◌∷◌, IfOk, OnOk};
ghost use Rattle.sv_names.specs.Distinct.{firsts, with_names};
ghost use Rattle.sv_resolve.specs.Mistakes as spec;
ghost use Rattle.sv_scopes.specs.Parts.{names_of};

use std::alloc::Global;
use sv_ast::Ref;
use sv_base::NoMemory;
use sv_names::Distinct;
use sv_scopes::{Binding, Declared, Form, Use};

/// The names that a scope declares, and of them the components and all constants.
#[derive(Drop)]
pub(crate) struct Table {
    pub(crate) all: Distinct,
    pub(crate) components: Distinct,
    pub(crate) constants: Distinct,
}

/// The table of what is declared.
pub(crate) fn table_of(alloc: Global, declares: &[Declared]) -> Result<Table, NoMemory>
    ensures { IfOk result (λ table. table ≡ record { all = firsts (names_of declares.now); components = firsts (spec.components declares.now); constants = firsts (spec.constants declares.now) }) }
{
    let mut table = Table {
        all: Distinct::new(alloc),
        components: Distinct::new(alloc),
        constants: Distinct::new(alloc),
    };
    for declared in declares {
        add(&mut table, declared)?;
    }
    Ok(table)
}

fn add(table: &mut Table, declared: &Declared) -> Result<(), NoMemory>
    ensures all { OnOk result (table.new.all ≡ with_names table.old.all (names_of (declared.now ∷ []))) }
    ensures components { OnOk result (table.new.components ≡ with_names table.old.components (spec.components (declared.now ∷ []))) }
    ensures constants { OnOk result (table.new.constants ≡ with_names table.old.constants (spec.constants (declared.now ∷ []))) }
{
    let name = Ref::Plain(declared.name);
    table.all.add(name)?;
    if is_component(declared.by) {
        table.components.add(name)?;
    }
    if is_constant(declared.by) {
        table.constants.add(name)?;
    }
    Ok(())
}

fn is_component(by: Binding) -> bool
    ensures { result ≡ spec.is_component by }
{
    matches!(by, Binding::Component)
}

fn is_constant(by: Binding) -> bool
    ensures { result ≡ spec.is_constant by }
{
    matches!(
        by,
        Binding::Const | Binding::Function | Binding::Import | Binding::Component
    )
}

/// The names that stand free in arrows.
pub(crate) fn captured_names(alloc: Global, uses: &[Use]) -> Result<Distinct, NoMemory>
    ensures { IfOk result (λ names. names ≡ firsts (spec.captured uses.now)) }
{
    let mut names = Distinct::new(alloc);
    for found in uses {
        if found.in_arrow {
            names.add(found.name)?;
        }
    }
    Ok(names)
}

/// Whether a use is an assignment.
pub(crate) fn assigns(form: Form) -> bool
    ensures { result ≡ spec.assigns form }
{
    !matches!(form, Form::Read)
}
