// What the modules of the language give.
ghost use Rattle.std.specs.Prelude.{◌≡◌};
ghost use Rattle.sv_base.specs.BuiltIn.{life_functions};
ghost use Rattle.sv_base.specs.Names.{is_one_of};
ghost use Rattle.sv_imports.specs.Language as spec;

use sv_base::built_in::{LIFE_FUNCTIONS, STORE_FUNCTIONS};
use sv_base::{Name, Names};

/// What `svelte/store` gives beside `STORE_FUNCTIONS`: the function that derives a store from others.
pub const DERIVED_FUNCTIONS: [&str; 1] = ["derived"];

/// Whether a name is that of a function of `svelte`, one of `sv_base::built_in::LIFE_FUNCTIONS`.
pub fn is_life_function(names: &Names, name: Name) -> bool
    ensures { result ≡ is_one_of names.now life_functions name }
{
    names.is_one_of(name, &LIFE_FUNCTIONS)
}

/// Whether a name is that of the function of `svelte/store` that derives a store from others.
pub fn is_derived(names: &Names, name: Name) -> bool
    ensures { result ≡ is_one_of names.now spec.derived_functions name }
{
    names.is_one_of(name, &DERIVED_FUNCTIONS)
}

/// Whether a name is that of a function of `svelte/store`.
pub fn is_store_function(names: &Names, name: Name) -> bool
    ensures { result ≡ spec.is_store_function names.now name }
{
    names.is_one_of(name, &STORE_FUNCTIONS) || is_derived(names, name)
}
