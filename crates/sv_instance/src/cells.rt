// The cells of an instance.
ghost use Rattle.std.specs.Prelude.{◌≡◌, ◌<◌, ℕ, length, IfOk, OnOk, is_some, option_copied, map, ◌++◌, IsTrue, IsSome, slice_set};
ghost use Rattle.sv_value.specs.View.{view_of};
ghost use Rattle.sv_instance.specs.Cells.{undeclared, cell_at, count_at, assigned_cell, assigned, changes_cell, changes, declared_cell, declared, touched_cell, touched, is_dirty, has_moved, snapped, cell_or_new, present, count_of};
ghost use Rattle.sv_instance.specs.Slots.{seen_at, slots_now, slots_seen};
ghost use Rattle.sv_instance.specs.Dirty.{is_among};

use crate::dirty::Dirty;
use std::alloc::Global;
use std::marker::Model;
use std::mem;
use sv_base::NoMemory;
use sv_value::{Value, differs};
use sv_view::Cell;

// What a cell holds, and what it held at the last snapshot, where it changed since.
#[derive(Drop)]
struct Slot {
    held: Option<Cell>,
    kept: Option<Cell>,
}

/// The variables of an instance, 255 at most, and what they were at its last snapshot. A cell is there once its declaration
/// ran.
#[derive(Drop)]
pub struct Cells {
    slots: Vec<Slot>,
    has_shown: bool,
}

impl Model for Cells {
    ghost use Rattle.sv_instance.specs.Cells.{Cells, cells_code};

    ghost Value = { Cells };

    ghost coded = { cells_code };

    ghost use Rattle.std.specs.Prelude.{◌<◌, length};
    ghost use Rattle.sv_instance.specs.Slots.{slots_now, slots_seen};

    ghost view = { λ c. record { now = slots_now c.slots.items; seen = slots_seen c.has_shown c.slots.items } };

    ghost invariant = { λ c. length c.slots.items < 256 };
}

impl Cells {
    /// So many cells whose declarations haven't run, without a snapshot.
    pub fn new(alloc: Global, count: u8) -> Result<Cells, NoMemory>
        ensures { IfOk result (λ cells. cells ≡ undeclared count) }
    {
        let mut slots = Vec::new(alloc);
        for _number in 0..count {
            slots.push(Slot {
                held: None,
                kept: None,
            })?;
        }
        Ok(Cells {
            slots,
            has_shown: false,
        })
    }

    /// A cell, or `None` exactly where its declaration hasn't run or there is no such cell.
    pub fn get(&self, cell: u8) -> Option<&Cell>
        ensures { option_copied result ≡ cell_at self.now.now cell }
    {
        cell_in(&self.slots, cell as usize)
    }

    /// Whether it has had a snapshot.
    pub fn has_shown(&self) -> bool
        ensures { result ≡ is_some self.now.seen }
    {
        self.has_shown
    }

    /// Gives a cell its first value, which counts as no change. Where it has one, or there was a snapshot, nothing changes.
    pub fn declare(&mut self, cell: u8, value: Value)
        ensures { self.new ≡ declared self.old cell (view_of value) }
    {
        if self.has_shown {
            drop(value);
        } else {
            declare_in(&mut self.slots, cell as usize, value);
        }
    }

    /// Whether assigning a cell would count as a change.
    pub fn changes(&self, cell: u8, value: &Value) -> bool
        ensures { result ≡ changes self.now cell (view_of value.now) }
    {
        match self.get(cell) {
            Some(cell) => differs(&cell.value, value),
            None => false,
        }
    }

    /// Assigns a cell, and says whether that counts as a change. Where its declaration hasn't run, nothing changes.
    pub fn assign(&mut self, cell: u8, value: Value) -> bool
        requires { count_at self.old.now cell < u64.MAX }
        ensures cells { self.new ≡ assigned self.old cell (view_of value) }
        ensures changed { result ≡ changes self.old cell (view_of value) }
    {
        assign_in(&mut self.slots, self.has_shown, cell as usize, value)
    }

    /// Counts one more change of a cell, whose value is `undefined`, and says whether its declaration has run.
    pub fn touch(&mut self, cell: u8) -> bool
        requires { count_at self.old.now cell < u64.MAX }
        ensures cells { self.new ≡ touched self.old cell }
        ensures there { result ≡ is_some (cell_at self.old.now cell) }
    {
        touch_in(&mut self.slots, self.has_shown, cell as usize)
    }

    /// Whether a cell's count isn't the one at the last snapshot; true where there was none.
    pub fn is_dirty(&self, cell: u8) -> bool
        ensures { result ≡ is_dirty self.now cell }
    {
        !self.has_shown || has_moved(&self.slots, cell as usize)
    }

    /// Which cells changed since the last snapshot, or all where there was none. The snapshot is now.
    pub fn take_dirty(&mut self) -> Dirty
        ensures cells { self.new ≡ snapped self.old }
        ensures length { length result ≡ length self.old.now }
        ensures dirty { (cell : ℕ) → cell < length self.old.now → is_among result cell ≡ is_dirty self.old cell }
    {
        let dirty = self.dirty();
        forget(&mut self.slots);
        self.has_shown = true;
        dirty
    }

    fn dirty(&self) -> Dirty
        ensures length { length result ≡ length self.now.now }
        ensures dirty { (cell : ℕ) → cell < length self.now.now → is_among result cell ≡ is_dirty self.now cell }
    {
        if self.has_shown {
            moved_in(&self.slots)
        } else {
            Dirty::all(self.slots.len())
        }
    }

    /// The present cells. One whose declaration hasn't run counts as `undefined` that never changed.
    pub fn present(&self, alloc: Global) -> Result<Vec<Cell>, NoMemory>
        ensures { IfOk result (λ cells. cells.items ≡ present self.now.now) }
    {
        let mut cells = Vec::new(alloc);
        append(&mut cells, &self.slots)?;
        Ok(cells)
    }
}

fn cell_in(slots: &[Slot], at: usize) -> Option<&Cell>
    ensures { option_copied result ≡ cell_at (slots_now slots.now) at }
{
    slots.get(at)?.held.as_ref()
}

fn declare_in(slots: &mut [Slot], at: usize, value: Value)
    ensures { slots_now slots.new ≡ slice_set (slots_now slots.old) at (declared_cell None (cell_at (slots_now slots.old) at) (view_of value)) }
{
    if at < slots.len() {
        declare_slot(&mut slots[at], value);
    } else {
        drop(value);
    }
}

fn declare_slot(slot: &mut Slot, value: Value)
    ensures { slot.new.held ≡ declared_cell None slot.old.held (view_of value) }
{
    if slot.held.is_none() {
        slot.held = Some(Cell { value, count: 0 });
    }
}

fn assign_in(slots: &mut [Slot], has_shown: bool, at: usize, value: Value) -> bool
    requires { count_at (slots_now slots.old) at < u64.MAX }
    ensures now { slots_now slots.new ≡ slice_set (slots_now slots.old) at (assigned_cell (cell_at (slots_now slots.old) at) (view_of value)) }
    ensures seen { slots_seen has_shown slots.new ≡ slots_seen has_shown slots.old }
    ensures changed { result ≡ changes_cell (cell_at (slots_now slots.old) at) (view_of value) }
{
    if at < slots.len() {
        return assign_slot(&mut slots[at], has_shown, value);
    }
    drop(value);
    false
}

fn assign_slot(slot: &mut Slot, has_shown: bool, value: Value) -> bool
    requires { count_of slot.old.held < u64.MAX }
    ensures now { slot.new.held ≡ assigned_cell slot.old.held (view_of value) }
    ensures seen { IsTrue has_shown → seen_at slot.new ≡ seen_at slot.old }
    ensures changed { result ≡ changes_cell slot.old.held (view_of value) }
{
    match &slot.held {
        Some(cell) if differs(&cell.value, &value) => {
            let count = cell.count + 1;
            put(slot, has_shown, Cell { value, count });
            true
        }
        _ => false,
    }
}

fn touch_in(slots: &mut [Slot], has_shown: bool, at: usize) -> bool
    requires { count_at (slots_now slots.old) at < u64.MAX }
    ensures now { slots_now slots.new ≡ slice_set (slots_now slots.old) at (touched_cell (cell_at (slots_now slots.old) at)) }
    ensures seen { slots_seen has_shown slots.new ≡ slots_seen has_shown slots.old }
    ensures there { result ≡ is_some (cell_at (slots_now slots.old) at) }
{
    at < slots.len() && touch_slot(&mut slots[at], has_shown)
}

fn touch_slot(slot: &mut Slot, has_shown: bool) -> bool
    requires { count_of slot.old.held < u64.MAX }
    ensures now { slot.new.held ≡ touched_cell slot.old.held }
    ensures seen { IsTrue has_shown → seen_at slot.new ≡ seen_at slot.old }
    ensures there { result ≡ is_some slot.old.held }
{
    let Some(cell) = &slot.held else {
        return false;
    };
    let count = cell.count + 1;
    let value = Value::Undefined;
    put(slot, has_shown, Cell { value, count });
    true
}

// Another cell in the place of one. What that held is kept, where there was a snapshot and it didn't change since.
fn put(slot: &mut Slot, has_shown: bool, cell: Cell)
    requires { IsSome slot.old.held }
    ensures now { slot.new.held ≡ Some cell }
    ensures seen { IsTrue has_shown → seen_at slot.new ≡ seen_at slot.old }
{
    let old = mem::replace(&mut slot.held, Some(cell));
    if has_shown && slot.kept.is_none() {
        slot.kept = old;
    }
}

fn has_moved(slots: &[Slot], at: usize) -> bool
    ensures { result ≡ has_moved (cell_at (map seen_at slots.now) at) (cell_at (slots_now slots.now) at) }
{
    at < slots.len() && has_slot_moved(&slots[at])
}

fn has_slot_moved(slot: &Slot) -> bool
    ensures { result ≡ has_moved (seen_at slot.now) slot.now.held }
{
    match &slot.kept {
        Some(was) => count_of(&slot.held) != was.count,
        None => false,
    }
}

fn count_of(cell: &Option<Cell>) -> u64
    ensures { result ≡ count_of cell.now }
{
    match cell {
        Some(cell) => cell.count,
        None => 0,
    }
}

fn moved_in(slots: &[Slot]) -> Dirty
    requires { length slots.now < 256 }
    ensures length { length result ≡ length slots.now }
    ensures dirty { (cell : ℕ) → cell < length slots.now → is_among result cell ≡ has_moved (cell_at (map seen_at slots.now) cell) (cell_at (slots_now slots.now) cell) }
{
    let mut flags = [false; 256];
    for at in 0..slots.len() {
        flags[at] = has_moved(slots, at);
    }
    Dirty::of(flags, slots.len())
}

fn forget(slots: &mut [Slot])
    ensures now { slots_now slots.new ≡ slots_now slots.old }
    ensures seen { map seen_at slots.new ≡ slots_now slots.old }
{
    for slot in slots.iter_mut() {
        slot.kept = None;
    }
}

fn append(cells: &mut Vec<Cell>, slots: &[Slot]) -> Result<(), NoMemory>
    ensures { OnOk result (cells.new.items ≡ cells.old.items ++ present (slots_now slots.now)) }
{
    for slot in slots {
        let cell = present_cell(&slot.held)?;
        cells.push(cell)?;
    }
    Ok(())
}

fn present_cell(cell: &Option<Cell>) -> Result<Cell, NoMemory>
    ensures { IfOk result (λ c. c ≡ cell_or_new cell.now) }
{
    match cell {
        Some(cell) => cell.share(),
        None => Ok(Cell {
            value: Value::Undefined,
            count: 0,
        }),
    }
}
