// Keys looked up by std's ordered map, so that a list of n keys takes about n times log n comparisons.
ghost use Rattle.std.specs.Prelude.{◌≡◌, ◌<◌, ◌≤◌, IfOk, OnOk, Some, map, if◌then◌else◌};
ghost use Rattle.std.specs.BTreeMap.{get};
ghost use Rattle.sv_keyed.specs.Keys.{same_key, first_repeat, place_of};
ghost use Rattle.sv_keyed.specs.Places.{key_order, FindsPlaces};

use std::alloc::Global;
use std::collections::BTreeMap;
use sv_base::NoMemory;
use sv_value::Key;

/// For each of these keys its place among some others, the last one where it stands there more than once; `NoMemory` comes only where
/// memory runs out.
pub fn places_among(
    alloc: Global,
    keys: &[Key],
    others: &[Key],
) -> Result<Vec<Option<usize>>, NoMemory>
    ensures { IfOk result (λ places. places.items ≡ map (place_of others.now) keys.now) }
{
    let found = places_of(alloc, others)?;
    let mut places = Vec::new(alloc);
    for key in keys {
        places.push(place_in(&found, key))?;
    }
    Ok(places)
}

/// A place of each of these keys: the last one.
pub(crate) fn places_of(alloc: Global, keys: &[Key]) -> Result<BTreeMap<Key, usize>, NoMemory>
    ensures finds { IfOk result (λ places. FindsPlaces (get key_order places) keys.now keys.now) }
    ensures last { IfOk result (λ places. (k : Key) → get key_order places k ≡ place_of keys.now k) }
{
    let mut places = BTreeMap::new(alloc);
    for (i, key) in keys.iter().enumerate() {
        note_place(&mut places, key, i)?;
    }
    Ok(places)
}

/// The first key that equals an earlier one, or `None` exactly where no key stands twice; `NoMemory` comes only where memory runs out.
pub fn first_duplicate(alloc: Global, keys: &[Key]) -> Result<Option<Key>, NoMemory>
    ensures { IfOk result (λ key. key ≡ first_repeat keys.now) }
{
    let mut places = BTreeMap::new(alloc);
    for (i, key) in keys.iter().enumerate() {
        if place_in(&places, key).is_some() {
            return Ok(Some(key.share()?));
        }
        note_place(&mut places, key, i)?;
    }
    Ok(None)
}

/// The place of this key.
pub(crate) fn place_in(places: &BTreeMap<Key, usize>, key: &Key) -> Option<usize>
    ensures { result ≡ get key_order places.now key.now }
{
    places.get(key).copied()
}

// Notes where a key stands.
fn note_place(places: &mut BTreeMap<Key, usize>, key: &Key, place: usize) -> Result<(), NoMemory>
    ensures { OnOk result ((k : Key) → get key_order places.new k ≡ (if same_key key.now k then Some place else get key_order places.old k)) }
{
    places.insert(key.share()?, place)?;
    Ok(())
}
