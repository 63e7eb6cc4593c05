// States that users leave in elements.
ghost use Rattle.std.specs.Prelude.{◌≡◌};
ghost use Rattle.sv_attributes.specs.Typed as spec;

use sv_tokens::Typed;

/// The name of the attribute over which a state is laid.
pub fn place_of(typed: &Typed) -> &'static str
    ensures { result.now ≡ spec.place_of typed.now }
{
    match typed {
        Typed::Text(_) => "value",
        Typed::Checked(_) => "checked",
    }
}
