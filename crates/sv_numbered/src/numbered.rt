// Values by number, kept in a slab.
ghost use Rattle.std.specs.Prelude.{◌≡◌, ◌≢◌, ℕ, ◌+◌, ◌++◌, ◌∷◌, [], Option, None, Some, IfOk, OnOk, OnErr, MatchOption, length, is_some, count_by, slice_set, option_copied};
ghost use Rattle.std.specs.Option.{option_copied_mut};
ghost use Rattle.std.specs.Borrow.{sem};
ghost use Rattle.sv_numbered.specs.Numbered.{at};
ghost use Rattle.sv_numbered.specs.Slots.{is_at, IsAt, IsNowhere};

use slab::Slab;
use std::alloc::Global;
use std::marker::Model;
use sv_base::NoMemory;
use sv_value::Inst;

// A value with its number.
#[derive(Drop)]
struct Entry<T> {
    number: u64,
    value: T,
}

/// Values under numbers that are given once, from 1, in order, and never again. A clause sees the value with number n at
/// place n of a list, or none where it was taken away; number 0 is never given.
#[derive(Drop)]
pub struct Numbered<T> {
    slots: Slab<Entry<T>>,
    next: u64,
}

impl<T> Model for Numbered<T> {
    ghost use Rattle.std.specs.Prelude.{List, Option};
    ghost use Rattle.std.specs.Coded.{coded_list, coded_option};

    ghost Value = { List (Option T) };

    ghost coded = { coded_list (coded_option T.code) };

    ghost use Rattle.sv_numbered.specs.Slots.{by_number, IsSound};

    ghost view = { λ a. by_number a.next a.slots.slots };

    ghost invariant = { λ a. IsSound a.next a.slots.slots };
}

impl<T> Numbered<T> {
    ghost use Rattle.sv_numbered.specs.Lends.{lends_at};

    /// No value, and no number given.
    pub fn new(alloc: Global) -> Numbered<T>
        ensures { result ≡ None ∷ [] }
    {
        Numbered {
            slots: Slab::new(alloc),
            next: 1,
        }
    }

    /// How many values there are.
    pub fn len(&self) -> usize
        ensures { result ≡ count_by is_some self.now }
    {
        self.slots.len()
    }

    /// The value with this number, or `None` exactly where there is none.
    pub fn get(&self, inst: Inst) -> Option<&T>
        ensures { option_copied result ≡ at self.now inst.number }
    {
        let key = key_of(&self.slots, inst)?;
        match self.slots.get(key) {
            Some(entry) => Some(&entry.value),
            None => None,
        }
    }

    /// The value with this number, to change, or `None` exactly where there is none.
    pub fn get_mut(&mut self, inst: Inst) -> Option<&mut T>
        ensures* writes_back { sem 𝓛 (lends_at T.row self.entry inst.number result) }
        ensures value { option_copied_mut result ≡ at self.old inst.number }
    {
        let key = key_of(&self.slots, inst)?;
        match self.slots.get_mut(key) {
            Some(entry) => Some(&mut entry.value),
            None => None,
        }
    }
}

impl<T: Drop> Numbered<T> {
    /// Gives the value the next number. Where no number or key is left, or no memory, it is let go.
    pub fn add(&mut self, value: T) -> Result<Inst, NoMemory>
        ensures number { IfOk result (λ inst. inst.number ≡ length self.old) }
        ensures ok { OnOk result (self.new ≡ self.old ++ Some value ∷ []) }
        ensures err { OnErr result (self.new ≡ self.old) }
    {
        let number = self.next;
        let Some(next) = number.checked_add(1) else {
            drop(value);
            return Err(NoMemory);
        };
        let Ok(key) = u32::try_from(self.slots.vacant_key()) else {
            drop(value);
            return Err(NoMemory);
        };
        self.slots.insert(Entry { number, value })?;
        self.next = next;
        Ok(Inst { key, number })
    }

    /// Takes the value with this number away. Without one nothing changes.
    pub fn remove(&mut self, inst: Inst) -> Option<T>
        ensures value { result ≡ at self.old inst.number }
        ensures rest { self.new ≡ slice_set self.old inst.number None }
    {
        let key = key_of(&self.slots, inst)?;
        let entry = self.slots.try_remove(key)?;
        let Entry { number: _, value } = entry;
        Some(value)
    }
}

// Where the value with this number is kept. The key that comes with the number is tried first.
fn key_of<T>(slots: &Slab<Entry<T>>, inst: Inst) -> Option<usize>
    ensures { MatchOption result (IsNowhere slots.now.slots inst.number) (IsAt slots.now.slots inst.number) }
{
    let hint = inst.key as usize;
    if has_number(slots, hint, inst.number) {
        return Some(hint);
    }
    for key in 0..slots.capacity() {
        if has_number(slots, key, inst.number) {
            return Some(key);
        }
    }
    None
}

// Whether the value at a key has this number.
fn has_number<T>(slots: &Slab<Entry<T>>, key: usize, number: u64) -> bool
    ensures { result ≡ is_at slots.now.slots number key }
{
    match slots.get(key) {
        Some(entry) => entry.number == number,
        None => false,
    }
}
