// Each blocks: their lists, and the rows to come.
ghost use Rattle.std.specs.Prelude.{◌≡◌, ◌<◌, ◌+◌, length, map, option_map, option_copied, is_some, IfOk, IfSome};
ghost use Rattle.sv_base.specs.declared.limits.TheConstants.{VALUE_SIZE_LIMIT};
ghost use Rattle.sv_value.specs.View.{view_of};
ghost use Rattle.sv_parts.specs.State.{Meets, spent, destroyed};
ghost use Rattle.sv_parts.specs.Sides.{sides};
ghost use Rattle.sv_plan.specs.Lists as spec;
ghost use Rattle.sv_parts.specs.Parts.{evaluated};
ghost use Rattle.sv_value.specs.Key.{key_of as key_in};

use std::alloc::Global;
use sv_base::{Name, NoMemory, Num};
use sv_code::{Frag, Part};
use sv_keyed::{first_duplicate, places_among};
use sv_list::Items;
use sv_ops::FaultKind;
use sv_parts::{Here, PatchError, Refusal, State, destroy, evaluate, fault_at, number, spend};
use sv_shapes::{Held, Row, Shape};
use sv_value::{Key, Value};
use sv_view::View;

/// An each block: its list, the names of a row, its key, its content, and the branch for no rows.
#[derive(Clone, Copy)]
pub struct EachBlock<'a> {
    pub list: &'a Part,
    pub item: Name,
    pub index: Option<Name>,
    pub key: Option<&'a Part>,
    pub body: &'a [Frag],
    pub none: &'a [Frag],
}

/// A row to come: its key, or its number where the list has no keys, and its item.
#[derive(Drop)]
pub struct Entry {
    pub key: Key,
    pub item: Held,
}

/// The number of a list, and its rows to come.
#[derive(Drop)]
pub struct Listing {
    pub number: u64,
    pub entries: Items<Entry>,
}

/// What was shown of an each block: the number of its list, its rows, and the branch for no rows.
#[derive(Clone, Copy)]
pub struct OldList<'a> {
    pub number: Option<u64>,
    pub rows: &'a [Row],
    pub none: &'a [Shape],
}

/// Where a row stands: the number of its list, its own number, and its item.
#[derive(Clone, Copy)]
pub struct Spot<'a> {
    pub list: u64,
    pub index: usize,
    pub item: &'a Value,
}

// The number of a row as a value, where there is such a number.
fn index_value(index: usize) -> Value
    ensures { view_of result ≡ spec.index_value index }
{
    match i64::try_from(index) {
        Ok(index) => match Num::new(index) {
            Some(number) => Value::Num(number),
            None => Value::Undefined,
        },
        Err(_) => Value::Undefined,
    }
}

/// The view of a row: its item, and inside it its number.
pub fn row_view(block: &EachBlock<'_>, spot: &Spot<'_>, view: &View) -> Result<View, NoMemory>
    ensures { IfOk result (λ v. v ≡ spec.row_view (spec.head_of block.now) spot.now.list spot.now.index (view_of spot.now.item.now) view.now) }
{
    let item = spot.item.share()?;
    let inner = view.with_local(block.item, item, spot.list)?;
    match block.index {
        Some(name) => inner.with_local(name, index_value(spot.index), spot.list),
        None => Ok(inner),
    }
}

// Evaluates the key of a row.
fn evaluate_key(
    here: &Here<'_>,
    block: &EachBlock<'_>,
    part: &Part,
    spot: &Spot<'_>,
    state: &mut State,
) -> Result<Held, PatchError>
    ensures { Meets result state.new (evaluated here.now.program.now part.now (record (sides here.now) { new = spec.row_view (spec.head_of block.now) spot.now.list spot.now.index (view_of spot.now.item.now) here.now.new.now }) state.old) }
{
    let view = row_view(block, spot, here.new)?;
    let inner = Here {
        new: &view,
        ..*here
    };
    evaluate(&inner, part, state)
}

// The key that a value is; `BadKey` where it is none.
fn key_of(part: &Part, value: &Value, state: &State) -> Result<Key, PatchError>
    ensures { Meets result state.now (spec.key_or part.now (key_in (view_of value.now)) state.now) }
{
    match Key::of(value)? {
        Some(key) => Ok(key),
        None => Err(fault_at(FaultKind::BadKey, part)),
    }
}

// The key of a row: that of its expression, or else its number.
fn take_key(
    here: &Here<'_>,
    block: &EachBlock<'_>,
    spot: &Spot<'_>,
    state: &mut State,
) -> Result<Key, PatchError>
    requires { spot.now.index < VALUE_SIZE_LIMIT }
    ensures { Meets result state.new (spec.row_key here.now.program.now (spec.head_of block.now) (option_copied block.now.key) (sides here.now) spot.now.list spot.now.index (view_of spot.now.item.now) state.old) }
{
    match block.key {
        Some(part) => match evaluate_key(here, block, part, spot, state) {
            Ok(value) => key_of(part, value.get(), state),
            Err(error) => Err(error),
        },
        None => Ok(Key::Num(spot.index as i64)),
    }
}

// A row to come.
fn take_entry(
    here: &Here<'_>,
    block: &EachBlock<'_>,
    spot: &Spot<'_>,
    state: &mut State,
) -> Result<Entry, PatchError>
    requires { spot.now.index < VALUE_SIZE_LIMIT }
    ensures { Meets result state.new (spec.entry_step here.now.program.now (spec.head_of block.now) (sides here.now) spot.now.list spot.now.index (view_of spot.now.item.now) state.old) }
{
    match take_key(here, block, spot, state) {
        Ok(key) => {
            let item = spot.item.share()?;
            Ok(Entry {
                key,
                item: Held::new(item),
            })
        }
        Err(error) => Err(error),
    }
}

// The rows to come of a list with a number.
fn take_entries(
    here: &Here<'_>,
    block: &EachBlock<'_>,
    list: u64,
    items: &[Value],
    state: &mut State,
) -> Result<Items<Entry>, PatchError>
    requires { length items.now < VALUE_SIZE_LIMIT }
    ensures { Meets result state.new (spec.entries_step here.now.program.now (spec.head_of block.now) (sides here.now) list (map view_of items.now) state.old) }
{
    let mut entries = Items::new(here.alloc);
    for index in 0..items.len() {
        let spot = Spot {
            list,
            index,
            item: &items[index],
        };
        match take_entry(here, block, &spot, state) {
            Ok(entry) => entries.push(entry)?,
            Err(error) => return Err(error),
        }
    }
    Ok(entries)
}

/// The keys of rows to come.
pub fn keys_of(alloc: Global, entries: &[Entry]) -> Result<Items<Key>, NoMemory>
    ensures { IfOk result (λ keys. keys ≡ spec.keys_of entries.now) }
{
    let mut keys = Items::new(alloc);
    for entry in entries {
        keys.push(entry.key.share()?)?;
    }
    Ok(keys)
}

/// The keys of rows that there were.
pub fn row_keys(alloc: Global, rows: &[Row]) -> Result<Items<Key>, NoMemory>
    ensures { IfOk result (λ keys. keys ≡ spec.row_keys rows.now) }
{
    let mut keys = Items::new(alloc);
    for row in rows {
        keys.push(row.key.share()?)?;
    }
    Ok(keys)
}

// Refuses a key that stands twice.
fn refuse_repeated(
    here: &Here<'_>,
    key: Option<&Part>,
    entries: &[Entry],
    state: &State,
) -> Result<(), PatchError>
    ensures { Meets result state.now (spec.once (option_copied key.entry) entries.now state.now) }
{
    let Some(part) = key else {
        return Ok(());
    };
    let keys = keys_of(here.alloc, entries)?;
    match first_duplicate(here.alloc, keys.as_slice())? {
        Some(key) => Err(PatchError::Refused(Refusal::Duplicate {
            span: part.span,
            key,
        })),
        None => Ok(()),
    }
}

// The items of a list.
fn items_of(value: &Value) -> Option<&[Value]>
    ensures items { option_map (λ b. map view_of b.now) result ≡ spec.items_in (view_of value.now) }
    ensures few { IfSome result (λ b. length b.now < VALUE_SIZE_LIMIT) }
{
    match value {
        Value::List(list) => Some(list.items()),
        Value::Undefined | Value::Null | Value::Bool(_) | Value::Num(_) | Value::Text(_) => None,
        Value::Obj(_) | Value::Func(_) | Value::Store(_) => None,
    }
}

// The rows to come of a list: each takes a unit of work, then come the keys, and none of them twice.
fn enumerate(
    here: &Here<'_>,
    block: &EachBlock<'_>,
    items: &[Value],
    state: &mut State,
) -> Result<Listing, PatchError>
    requires { length items.now < VALUE_SIZE_LIMIT }
    ensures { Meets result state.new (spec.listing_of here.now.program.now (spec.head_of block.now) (sides here.now) (map view_of items.now) state.old) }
{
    match spend(state, items.len()) {
        Ok(()) => {}
        Err(error) => return Err(error),
    }
    let number = match number(state) {
        Ok(number) => number,
        Err(error) => return Err(error),
    };
    match take_entries(here, block, number, items, state) {
        Ok(entries) => match refuse_repeated(here, block.key, entries.as_slice(), state) {
            Ok(()) => Ok(Listing { number, entries }),
            Err(error) => Err(error),
        },
        Err(error) => Err(error),
    }
}

// The list evaluated.
fn evaluate_list(
    here: &Here<'_>,
    block: &EachBlock<'_>,
    state: &mut State,
) -> Result<Listing, PatchError>
    ensures { Meets result state.new (spec.enumerated here.now.program.now (spec.head_of block.now) (sides here.now) state.old) }
{
    match evaluate(here, block.list, state) {
        Ok(value) => match items_of(value.get()) {
            Some(items) => enumerate(here, block, items, state),
            None => Err(fault_at(FaultKind::NotAList, block.list)),
        },
        Err(error) => Err(error),
    }
}

// A row that stays as it is.
fn entries_of(alloc: Global, rows: &[Row]) -> Result<Items<Entry>, NoMemory>
    ensures { IfOk result (λ entries. entries ≡ map spec.entry_of rows.now) }
{
    let mut entries = Items::new(alloc);
    for row in rows {
        entries.push(Entry {
            key: row.key.share()?,
            item: row.item.share()?,
        })?;
    }
    Ok(entries)
}

// Whether something was found at a number.
fn is_found(places: &[Option<usize>], index: usize) -> bool
    ensures { result ≡ is_some (spec.place_at places.now index) }
{
    match places.get(index) {
        Some(place) => place.is_some(),
        None => false,
    }
}

// Destroys what stands in the rows whose keys aren't among some.
fn destroy_rows(
    alloc: Global,
    keys: &[Key],
    rows: &[Row],
    state: &mut State,
) -> Result<(), PatchError>
    ensures { Meets result state.new (destroyed (spec.gone_rows keys.now rows.now) state.old) }
{
    let olds = row_keys(alloc, rows)?;
    let places = places_among(alloc, olds.as_slice(), keys)?;
    for index in 0..rows.len() {
        let row = &rows[index];
        if is_found(&places, index) {
            continue;
        }
        match destroy(alloc, row.parts.as_slice(), state) {
            Ok(()) => {}
            Err(error) => return Err(error),
        }
    }
    Ok(())
}

// Destroys what stands in the branch for no rows, where there are rows.
fn destroy_none(
    alloc: Global,
    entries: &[Entry],
    none: &[Shape],
    state: &mut State,
) -> Result<(), PatchError>
    ensures { Meets result state.new (destroyed (spec.gone_none entries.now none.now) state.old) }
{
    match entries {
        [] => destroy(alloc, &[], state),
        [_, ..] => destroy(alloc, none, state),
    }
}

// Destroys what goes: rows whose keys aren't among those to come, and the branch for no rows where there are rows.
fn destroy_gone(
    here: &Here<'_>,
    entries: &[Entry],
    old: &OldList<'_>,
    state: &mut State,
) -> Result<(), PatchError>
    ensures { Meets result state.new (destroyed (spec.gone entries.now old.now.rows.now old.now.none.now) state.old) }
{
    let keys = keys_of(here.alloc, entries)?;
    match destroy_rows(here.alloc, keys.as_slice(), old.rows, state) {
        Ok(()) => destroy_none(here.alloc, entries, old.none, state),
        Err(error) => Err(error),
    }
}

// The list evaluated, and what goes destroyed.
fn list_anew(
    here: &Here<'_>,
    block: &EachBlock<'_>,
    old: &OldList<'_>,
    state: &mut State,
) -> Result<Listing, PatchError>
    ensures { Meets result state.new (spec.listed_anew here.now.program.now (spec.head_of block.now) (sides here.now) old.now.rows.now old.now.none.now state.old) }
{
    match evaluate_list(here, block, state) {
        Ok(listing) => match destroy_gone(here, listing.entries.as_slice(), old, state) {
            Ok(()) => Ok(listing),
            Err(error) => Err(error),
        },
        Err(error) => Err(error),
    }
}

/// The rows to come: those of the list, which is evaluated where it is new or something of it moved, or the old ones. Refused are a fault of the
/// list, `NotAList`, `Budget` where its rows are more than the work that is left, a fault of a key, `BadKey`, and `Duplicate` for the first key
/// that comes again.
pub fn take_list(
    here: &Here<'_>,
    block: &EachBlock<'_>,
    old: &OldList<'_>,
    state: &mut State,
) -> Result<Listing, PatchError>
    ensures { Meets result state.new (spec.list_step here.now.program.now (spec.head_of block.now) (sides here.now) old.now.number old.now.rows.now old.now.none.now state.old) }
{
    match old.number {
        Some(number) => {
            if here.has_moved(&block.list.reads) {
                return list_anew(here, block, old, state);
            }
            let entries = entries_of(here.alloc, old.rows)?;
            Ok(Listing { number, entries })
        }
        None => list_anew(here, block, old, state),
    }
}
