// The expressions of attributes and directives.
ghost use Rattle.std.specs.Prelude.{◌≡◌, ◌++◌, OnOk};
ghost use Rattle.std.specs.List.{flat_map};
ghost use Rattle.sv_listing.specs.Parts as spec;

use crate::found::Parts;
use sv_base::NoMemory;
use sv_code::{FragAttr, FragValue, FragValuePart};

fn find_in_piece<'a>(found: &mut Parts<'a>, piece: &'a FragValuePart) -> Result<(), NoMemory>
    ensures { OnOk result (found.new ≡ found.old ++ spec.in_piece piece.now) }
{
    match piece {
        FragValuePart::Text(_) => Ok(()),
        FragValuePart::Show(part) => found.push(part),
    }
}

fn find_in_pieces<'a>(found: &mut Parts<'a>, pieces: &'a [FragValuePart]) -> Result<(), NoMemory>
    ensures { OnOk result (found.new ≡ found.old ++ flat_map spec.in_piece pieces.now) }
{
    for piece in pieces {
        find_in_piece(found, piece)?;
    }
    Ok(())
}

fn find_in_value<'a>(found: &mut Parts<'a>, value: &'a FragValue) -> Result<(), NoMemory>
    ensures { OnOk result (found.new ≡ found.old ++ spec.in_value value.now) }
{
    match value {
        FragValue::Bare => Ok(()),
        FragValue::Parts(pieces) => find_in_pieces(found, pieces.as_slice()),
    }
}

fn find_in_attr<'a>(found: &mut Parts<'a>, attr: &'a FragAttr) -> Result<(), NoMemory>
    ensures { OnOk result (found.new ≡ found.old ++ spec.in_attr attr.now) }
{
    match attr {
        FragAttr::Plain { value, .. } => find_in_value(found, value),
        FragAttr::On { .. } => Ok(()),
        FragAttr::Bind { target, .. } => found.push(target),
        FragAttr::Class { test, .. } => found.push(test),
    }
}

/// Adds the expressions of attributes to those that were found.
pub(crate) fn find_in_attrs<'a>(
    found: &mut Parts<'a>,
    attrs: &'a [FragAttr],
) -> Result<(), NoMemory>
    ensures { OnOk result (found.new ≡ found.old ++ spec.in_attrs attrs.now) }
{
    for attr in attrs {
        find_in_attr(found, attr)?;
    }
    Ok(())
}
