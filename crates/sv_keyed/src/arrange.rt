// The walk that finds the steps.
ghost use Rattle.std.specs.Prelude.{◌≡◌, ◌+◌, ◌-◌, ◌^◌, ◌<◌, ◌≤◌, [], IfOk, OnOk, None, Some, Err, length, slice_index_or, true, false};
ghost use Rattle.sv_keyed.specs.Keys.{IsDistinct, first_repeat};
ghost use Rattle.sv_keyed.specs.Steps.{Leads, HaveSpots};
ghost use Rattle.sv_keyed.specs.Marks.{left, AreMarked};
ghost use Rattle.sv_keyed.specs.Walk.{Dropping, Placing};

use crate::places::{first_duplicate, place_in, places_of};
use crate::step::{KeyRefusal, KeyStep};
use std::alloc::Global;
use sv_base::NoMemory;
use sv_value::Key;

// The most keys of a list, so that each place is a `u32`.
const PLACE_LIMIT: usize = u32::MAX as usize;

/// The steps that lead from the old keys to the new ones: what is not in the new list goes, and then, from the new list's end
/// on, each row that does not stand in its place is made or moved.
///
/// Where no key stands twice in `old`, the steps applied in order to `old` give `new`, a key in both lists is neither dropped
/// nor made, and only such a key is moved; and each row that is made or moved goes to the end, or before another row whose key
/// stands in the list then. Equal lists give no step. `Duplicate` comes exactly where a key stands twice in
/// `new`.
pub fn moves(alloc: Global, old: &[Key], new: &[Key]) -> Result<Vec<KeyStep>, KeyRefusal>
    ensures steps { IfOk result (λ steps. IsDistinct old.now → Leads old.now new.now steps.items) }
    ensures spots { IfOk result (λ steps. IsDistinct old.now → HaveSpots old.now new.now steps.items old.now) }
    ensures idle { IfOk result (λ steps. old.now ≡ new.now → steps.items ≡ []) }
    ensures distinct { OnOk result (first_repeat new.now ≡ None) }
    ensures duplicate { (k : Key) → result ≡ Err (KeyRefusal.Duplicate k) → first_repeat new.now ≡ Some k }
{
    if let Some(key) = first_duplicate(alloc, new)? {
        return Err(KeyRefusal::Duplicate(key));
    }
    if old.len() > PLACE_LIMIT || new.len() > PLACE_LIMIT {
        return Err(KeyRefusal::NoMemory);
    }
    let steps = walk(alloc, old, new)?;
    Ok(steps)
}

// The steps, where no new key stands twice.
fn walk(alloc: Global, old: &[Key], new: &[Key]) -> Result<Vec<KeyStep>, NoMemory>
    requires once { first_repeat new.now ≡ None }
    requires few_old { length old.now < 2 ^ 32 }
    requires few_new { length new.now < 2 ^ 32 }
    ensures placed { IfOk result (λ steps. IsDistinct old.now → Placing old.now new.now steps.items [] 0) }
    ensures idle { IfOk result (λ steps. old.now ≡ new.now → steps.items ≡ []) }
{
    let mut steps = Vec::new(alloc);
    let mut gone = drop_gone(alloc, old, new, &mut steps)?;
    place(alloc, old, new, &mut gone, &mut steps)?;
    Ok(steps)
}

// Drops the keys that are not in the new list, and marks them.
fn drop_gone(
    alloc: Global,
    old: &[Key],
    new: &[Key],
    steps: &mut Vec<KeyStep>,
) -> Result<Vec<bool>, NoMemory>
    requires none_yet { steps.old.items ≡ [] }
    requires few_old { length old.now < 2 ^ 32 }
    ensures marks { IfOk result (λ gone. length gone.items ≡ length old.now) }
    ensures dropped { IfOk result (λ gone. Dropping old.now new.now steps.new.items (left gone.items old.now) (length old.now)) }
{
    let in_new = places_of(alloc, new)?;
    let mut gone = Vec::new(alloc);
    for i in 0..old.len() {
        match place_in(&in_new, &old[i]) {
            Some(_) => gone.push(false)?,
            None => {
                gone.push(true)?;
                steps.push(KeyStep::Drop { old: i as u32 })?;
            }
        }
    }
    Ok(gone)
}

// Makes or moves the keys of the new list from its end on, and marks those that are placed.
fn place(
    alloc: Global,
    old: &[Key],
    new: &[Key],
    gone: &mut [bool],
    steps: &mut Vec<KeyStep>,
) -> Result<(), NoMemory>
    requires once { first_repeat new.now ≡ None }
    requires few_old { length old.now < 2 ^ 32 }
    requires few_new { length new.now < 2 ^ 32 }
    requires marks { length gone.old ≡ length old.now }
    requires dropped { Dropping old.now new.now steps.old.items (left gone.old old.now) (length old.now) }
    ensures { OnOk result (IsDistinct old.now → Placing old.now new.now steps.new.items (left gone.new old.now) 0) }
{
    let in_old = places_of(alloc, old)?;
    let mut end = old.len();
    let mut j = new.len();
    while j > 0 {
        let before = if j < new.len() { Some(j as u32) } else { None };
        j -= 1;
        end = end_of_left(gone, end);
        match place_in(&in_old, &new[j]) {
            None => {
                let new = j as u32;
                steps.push(KeyStep::Make { new, before })?;
            }
            Some(at) if at + 1 == end => gone[at] = true,
            Some(at) => {
                gone[at] = true;
                let new = j as u32;
                steps.push(KeyStep::Shift { new, before })?;
            }
        }
    }
    Ok(())
}

// The place behind the last key without a mark, where all from `end` on have one.
fn end_of_left(gone: &[bool], end: usize) -> usize
    requires within { end ≤ length gone.now }
    requires marked { AreMarked gone.now end }
    ensures within { result ≤ end }
    ensures marked { AreMarked gone.now result }
    ensures left { 0 < result → slice_index_or gone.now (result - 1) true ≡ false }
{
    let mut behind = end;
    while behind > 0 && gone[behind - 1] {
        behind -= 1;
    }
    behind
}
