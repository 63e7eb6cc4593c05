// The rows of each blocks.
ghost use Rattle.std.specs.Prelude.{◌≡◌, map, option_map, IfOk};
ghost use Rattle.sv_keyed.specs.Keys.{place_of};
ghost use Rattle.sv_plan.specs.Lists.{head_of, keys_of as spec_keys_of, row_keys as spec_row_keys, place_at as spec_place_at};
ghost use Rattle.sv_plan.specs.Rows as spec;
ghost use Rattle.sv_parts.specs.Sides.{sides};

use crate::lists::{EachBlock, Entry, Spot, keys_of, row_keys, row_view};
use std::alloc::Global;
use sv_base::NoMemory;
use sv_keyed::places_among;
use sv_parts::Here;
use sv_shapes::{Row, Shape};
use sv_view::View;

/// A row that there was, and its number.
#[derive(Clone, Copy)]
pub struct OldRow<'a> {
    pub index: usize,
    pub row: &'a Row,
}

/// A row to come: the number of its list, its own number, what it is, the number that its list had, and the row that had its key.
#[derive(Clone, Copy)]
pub struct NextRow<'a> {
    pub list: u64,
    pub index: usize,
    pub entry: &'a Entry,
    pub old_list: u64,
    pub old: Option<OldRow<'a>>,
}

/// The views of a row.
#[derive(Drop)]
pub struct Views {
    pub old: View,
    pub new: View,
}

/// For each row to come the place of the row that had its key.
pub fn find_rows(
    alloc: Global,
    entries: &[Entry],
    rows: &[Row],
) -> Result<Vec<Option<usize>>, NoMemory>
    ensures { IfOk result (λ places. places.items ≡ map (place_of (spec_row_keys rows.now)) (spec_keys_of entries.now)) }
{
    let keys = keys_of(alloc, entries)?;
    let olds = row_keys(alloc, rows)?;
    places_among(alloc, keys.as_slice(), olds.as_slice())
}

fn place_at(places: &[Option<usize>], index: usize) -> Option<usize>
    ensures { result ≡ spec_place_at places.now index }
{
    match places.get(index) {
        Some(place) => *place,
        None => None,
    }
}

/// The row at the place that was found for the row to come with a number.
pub fn old_row<'a>(rows: &'a [Row], places: &[Option<usize>], index: usize) -> Option<OldRow<'a>>
    ensures { option_map spec.seen result ≡ spec.old_found rows.now (spec_place_at places.now index) }
{
    let index = place_at(places, index)?;
    let row = rows.get(index)?;
    Some(OldRow { index, row })
}

/// What stood in a row.
pub fn old_parts(old: Option<OldRow<'_>>) -> &[Shape]
    ensures { result.now ≡ spec.old_parts (option_map spec.seen old.entry) }
{
    match old {
        Some(old) => old.row.parts.as_slice(),
        None => &[],
    }
}

fn old_view(
    block: &EachBlock<'_>,
    list: u64,
    old: Option<OldRow<'_>>,
    view: &View,
) -> Result<View, NoMemory>
    ensures { IfOk result (λ v. v ≡ spec.old_view (head_of block.now) list (option_map spec.seen old.entry) view.now) }
{
    match old {
        Some(old) => {
            let spot = Spot {
                list,
                index: old.index,
                item: old.row.item.get(),
            };
            row_view(block, &spot, view)
        }
        None => view.share(),
    }
}

/// The two views of a row: the old one is that of the row that had its key.
pub fn row_views(
    here: &Here<'_>,
    block: &EachBlock<'_>,
    next: &NextRow<'_>,
) -> Result<Views, NoMemory>
    ensures { IfOk result (λ v. spec.views_of v ≡ spec.row_sides (head_of block.now) next.now.old_list next.now.list (option_map spec.seen next.now.old) next.now.index next.now.entry.now.item (sides here.now)) }
{
    let spot = Spot {
        list: next.list,
        index: next.index,
        item: next.entry.item.get(),
    };
    Ok(Views {
        old: old_view(block, next.old_list, next.old, here.old)?,
        new: row_view(block, &spot, here.new)?,
    })
}
