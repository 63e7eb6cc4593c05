// The places of component tags.
ghost use Rattle.std.specs.Prelude.{◌≡◌, ◌++◌, IfOk, OnOk};
ghost use Rattle.sv_shapes.specs.Places.{places, places_all, places_rows};

use crate::shape::{Row, Shape};
use std::alloc::Global;
use sv_base::NoMemory;
use sv_list::Items;

/// The places of the component tags in what is shown, in document order; `NoMemory` comes only where memory runs out.
pub fn places_of(alloc: Global, parts: &[Shape]) -> Result<Items<u64>, NoMemory>
    ensures { IfOk result (λ found. found ≡ places_all parts.now) }
{
    let mut found = Items::new(alloc);
    add_all(&mut found, parts)?;
    Ok(found)
}

#[cycle(places)]
fn add_one(found: &mut Items<u64>, shape: &Shape) -> Result<(), NoMemory>
    ensures { OnOk result (found.new ≡ found.old ++ places shape.now) }
{
    match shape {
        Shape::Literal(_) => Ok(()),
        Shape::Text { .. } => Ok(()),
        Shape::Element { parts, .. } => add_all(found, parts.as_slice()),
        Shape::Tag { place, .. } => found.push(*place),
        Shape::Nothing => Ok(()),
        Shape::Slot { parts, .. } => add_all(found, parts.as_slice()),
        Shape::If { parts, .. } => add_all(found, parts.as_slice()),
        Shape::Each { rows, none, .. } => {
            add_rows(found, rows.as_slice())?;
            add_all(found, none.as_slice())
        }
        Shape::Key { parts, .. } => add_all(found, parts.as_slice()),
    }
}

#[cycle(places)]
fn add_rows(found: &mut Items<u64>, rows: &[Row]) -> Result<(), NoMemory>
    ensures { OnOk result (found.new ≡ found.old ++ places_rows rows.now) }
{
    for row in rows {
        add_all(found, row.parts.as_slice())?;
    }
    Ok(())
}

#[cycle(places)]
fn add_all(found: &mut Items<u64>, parts: &[Shape]) -> Result<(), NoMemory>
    ensures { OnOk result (found.new ≡ found.old ++ places_all parts.now) }
{
    for part in parts {
        add_one(found, part)?;
    }
    Ok(())
}
