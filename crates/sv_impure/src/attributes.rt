// The expressions of attributes and directives.
ghost use Rattle.std.specs.Prelude.{◌≡◌, ◌++◌, map, OnOk};
ghost use Rattle.sv_purity.specs.Pure.{each};
ghost use Rattle.sv_purity.specs.Scopes.{visible};
ghost use Rattle.sv_impure.specs.Impure as spec;

use crate::walk::find_shown;
use sv_ast::{AttrPart, AttrValue, TagAttr};
use sv_base::{Names, NoMemory, Span};
use sv_list::Items;
use sv_purity::Scope;

/// Notes which expressions of attributes aren't pure.
pub(crate) fn find_attributes(
    attrs: &[TagAttr],
    places: &mut Items<Span>,
    names: &Names,
    scope: &Scope<'_>,
) -> Result<(), NoMemory>
    ensures { OnOk result (places.new ≡ places.old ++ spec.attributes attrs.now names.now (visible scope.now)) }
{
    for attr in attrs {
        find_value(&attr.value, places, names, scope)?;
    }
    Ok(())
}

fn find_value(
    value: &AttrValue,
    places: &mut Items<Span>,
    names: &Names,
    scope: &Scope<'_>,
) -> Result<(), NoMemory>
    ensures { OnOk result (places.new ≡ places.old ++ spec.in_value value.now names.now (visible scope.now)) }
{
    match value {
        AttrValue::Bare => Ok(()),
        AttrValue::Parts(parts) => find_parts(parts.as_slice(), places, names, scope),
    }
}

fn find_parts(
    parts: &[AttrPart],
    places: &mut Items<Span>,
    names: &Names,
    scope: &Scope<'_>,
) -> Result<(), NoMemory>
    ensures { OnOk result (places.new ≡ places.old ++ each (map spec.part parts.now) names.now (visible scope.now)) }
{
    for part in parts {
        find_part(part, places, names, scope)?;
    }
    Ok(())
}

fn find_part(
    part: &AttrPart,
    places: &mut Items<Span>,
    names: &Names,
    scope: &Scope<'_>,
) -> Result<(), NoMemory>
    ensures { OnOk result (places.new ≡ places.old ++ spec.part part.now names.now (visible scope.now)) }
{
    match part {
        AttrPart::Text(_) => Ok(()),
        AttrPart::Show { value, .. } => find_shown(value, places, names, scope),
    }
}
