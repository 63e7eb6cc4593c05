// The branches of if blocks, and the rows of each blocks.
ghost use Rattle.std.specs.Prelude.{◌≡◌, map, slice_get, option_copied, IfOk};
ghost use Rattle.sv_plan.specs.Blocks.{tests};
ghost use Rattle.sv_value.specs.View.{view_of};
ghost use Rattle.sv_fresh.specs.Blocks as spec;

use crate::scene::Here;
use crate::values::holds_at;
use std::alloc::Global;
use sv_base::NoMemory;
use sv_code::FragArm;
use sv_list::Items;
use sv_shapes::{Held, Row, Shape};
use sv_value::Value;

/// The first branch whose condition is true, or the last one.
pub fn choose(here: &Here<'_>, arms: &[FragArm]) -> Result<usize, NoMemory>
    ensures { IfOk result (λ arm. arm ≡ spec.choose here.now.scene.now.program.now here.now.view.now (tests arms.now) 0) }
{
    for index in 0..arms.len() {
        if holds_at(here, &arms[index].test)? {
            return Ok(index);
        }
    }
    Ok(arms.len())
}

// Values that are kept, of which nothing is copied.
fn held(alloc: Global, values: &[Value]) -> Result<Items<Held>, NoMemory>
    ensures { IfOk result (λ items. items ≡ map view_of values.now) }
{
    let mut items = Items::new(alloc);
    for value in values {
        items.push(Held::new(value.share()?))?;
    }
    Ok(items)
}

/// The items of a list; another value has none.
pub fn items_in(alloc: Global, value: Option<&Held>) -> Result<Items<Held>, NoMemory>
    ensures { IfOk result (λ items. items ≡ spec.items_in (option_copied value.entry)) }
{
    match value {
        Some(value) => match value.get() {
            Value::List(list) => held(alloc, list.items()),
            _ => Ok(Items::new(alloc)),
        },
        None => Ok(Items::new(alloc)),
    }
}

/// What is recorded of the row with a number.
pub fn row_parts(rows: &[Row], number: usize) -> &[Shape]
    ensures { result.now ≡ spec.row_parts (slice_get rows.now number) }
{
    match rows.get(number) {
        Some(row) => row.parts.as_slice(),
        None => &[],
    }
}
