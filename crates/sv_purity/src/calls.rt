// The words of calls.
ghost use Rattle.std.specs.Prelude.{◌≡◌};
ghost use Rattle.sv_base.specs.BuiltIn.{list_calls, math_functions, value_calls};
ghost use Rattle.sv_base.specs.Names as spec;

use sv_base::built_in::{LIST_CALLS, MATH, MATH_FUNCTIONS, VALUE_CALLS};
use sv_base::{Name, Names};

/// Whether a name is that of a call on a list that goes by a function.
pub fn is_list_call(names: &Names, name: Name) -> bool
    ensures { result ≡ spec.is_one_of names.now list_calls name }
{
    names.is_one_of(name, &LIST_CALLS)
}

/// Whether a name is that of another call on a list, or of one on a text.
pub fn is_value_call(names: &Names, name: Name) -> bool
    ensures { result ≡ spec.is_one_of names.now value_calls name }
{
    names.is_one_of(name, &VALUE_CALLS)
}

/// Whether a name is that of a function of `Math`.
pub fn is_math_call(names: &Names, name: Name) -> bool
    ensures { result ≡ spec.is_one_of names.now math_functions name }
{
    names.is_one_of(name, &MATH_FUNCTIONS)
}

/// Whether a name is `Math`.
pub fn is_math(names: &Names, name: Name) -> bool
    ensures { result ≡ spec.is_text names.now MATH.now name }
{
    names.is_text(name, MATH)
}
