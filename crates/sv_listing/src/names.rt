// The names of locals.
ghost use Rattle.std.specs.Prelude.{◌≡◌, ◌++◌, map, OnOk, string_bytes};
ghost use Rattle.sv_listing.specs.Names as spec;

use sv_base::{Name, Names, NoMemory};

/// Appends the text of a name.
pub(crate) fn push_name(text: &mut String, names: &Names, name: Name) -> Result<(), NoMemory>
    ensures { OnOk result (string_bytes text.new ≡ string_bytes text.old ++ spec.name_text names.now name) }
{
    match names.text(name) {
        Some(found) => Ok(text.push_str(found)?),
        None => Ok(()),
    }
}

/// Appends locals, each behind a comma.
pub(crate) fn push_more_locals(
    text: &mut String,
    names: &Names,
    locals: &[Name],
) -> Result<(), NoMemory>
    ensures { OnOk result (string_bytes text.new ≡ string_bytes text.old ++ spec.behind_commas (map (spec.name_text names.now) locals.now)) }
{
    for local in locals {
        text.push_str(",")?;
        push_name(text, names, *local)?;
    }
    Ok(())
}

/// Appends the list of locals.
pub(crate) fn push_locals(text: &mut String, names: &Names, locals: &[Name]) -> Result<(), NoMemory>
    ensures { OnOk result (string_bytes text.new ≡ string_bytes text.old ++ spec.listed (map (spec.name_text names.now) locals.now)) }
{
    match locals.split_first() {
        Some((first, more)) => {
            push_name(text, names, *first)?;
            push_more_locals(text, names, more)
        }
        None => Ok(text.push_str("-")?),
    }
}
