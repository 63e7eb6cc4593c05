// A walk over what is shown in one place, from its end on.
ghost use Rattle.std.specs.Prelude.{◌≡◌, ◌<◌, ◌≤◌, ℕ, [], ◌∷◌, ◌++◌, IfSome, IsSome, OnOk, None, length, true, option_map, is_some, slice_set, if◌then◌else◌};
ghost use Rattle.sv_live.specs.Known.{number, known};
ghost use Rattle.sv_live.specs.Stands.{cursor};
ghost use Rattle.sv_live.specs.Walk.{Takes, KeepsOthers, slot, has_number};

use crate::live::{Live, Lives};
use std::alloc::Global;
use std::collections::BTreeMap;
use std::marker::Model;
use sv_base::NoMemory;
use sv_list::Items;

/// One that was taken out, and whether it was the last that was to be placed.
#[derive(Drop)]
pub struct Taken {
    pub live: Live,
    pub last: bool,
}

/// What is shown in one place: what was not looked at yet, what is to be placed, which is found by its number, and what is
/// placed.
#[derive(Drop)]
pub struct Walk {
    left: Vec<Live>,
    // From the last one on; those before `start` are taken.
    slots: Vec<Option<Live>>,
    start: usize,
    index: BTreeMap<u128, usize>,
    // From the last one on.
    done: Vec<Live>,
}

impl Model for Walk {
    ghost use Rattle.std.specs.Prelude.{reverse};
    ghost use Rattle.std.specs.Coded.{codes};
    ghost use Rattle.sv_live.specs.Walk.{Walk, rest_of, IsIndexed};
    ghost use Rattle.sv_live.specs.contracts.live.Live as entry;

    ghost Value = { Walk };

    ghost coded = { Prim.hlevel (codes, entry.the_row.coded) };

    ghost view = { λ w. record { left = w.left.items; rest = rest_of w.slots.items; placed = reverse w.done.items } };

    ghost invariant = { λ w. IsIndexed w.slots.items w.start w.index };
}

impl Walk {
    /// Nothing was looked at yet.
    pub fn new(alloc: Global, lives: Lives) -> Walk
        ensures { result ≡ record { left = lives; rest = []; placed = [] } }
    {
        Walk {
            left: lives.into_vec(),
            slots: Vec::new(alloc),
            start: 0,
            index: BTreeMap::new(alloc),
            done: Vec::new(alloc),
        }
    }

    /// The last one that was not looked at yet.
    pub fn next_left(&mut self) -> Option<Live>
        ensures some { IfSome result (λ l. self.old.left ≡ self.new.left ++ l ∷ []) }
        ensures none { result ≡ None → self.old.left ≡ [] }
        ensures rest { self.new.rest ≡ self.old.rest }
        ensures placed { self.new.placed ≡ self.old.placed }
    {
        self.left.pop()
    }

    /// Whether one with that number is to be placed.
    pub fn has(&self, number: u128) -> bool
        ensures { result ≡ is_some (known number self.now.rest) }
    {
        match self.index.get(&number) {
            Some(at) => is_there(&self.slots, *at, number),
            None => false,
        }
    }

    /// One that was there is to be placed, before the others.
    pub fn keep(&mut self, live: Live) -> Result<(), NoMemory>
        requires { known (number live) self.old.rest ≡ None }
        ensures left { self.new.left ≡ self.old.left }
        ensures rest { OnOk result (self.new.rest ≡ live ∷ self.old.rest) }
        ensures placed { self.new.placed ≡ self.old.placed }
    {
        self.index.insert(live.number(), self.slots.len())?;
        self.slots.push(Some(live))?;
        Ok(())
    }

    /// The node that the next one is put before.
    pub fn cursor(&self, end: Option<u32>) -> Option<u32>
        ensures { result ≡ cursor self.now.placed end }
    {
        match self.done.last() {
            Some(live) => Some(live.lead()),
            None => end,
        }
    }

    /// Places one before those that are placed.
    pub fn put(&mut self, live: Live) -> Result<(), NoMemory>
        ensures rest { self.new.rest ≡ self.old.rest }
        ensures placed { OnOk result (self.new.placed ≡ live ∷ self.old.placed) }
    {
        self.done.push(live)?;
        Ok(())
    }

    /// Takes the one with that number out of what is to be placed. `None` exactly where there is none.
    pub fn take(&mut self, number: u128) -> Option<Taken>
        ensures taken { IfSome result (λ t. Takes self.old.rest self.new.rest t.live t.last) }
        ensures found { option_map (λ t. t.live) result ≡ known number self.old.rest }
        ensures others { KeepsOthers number self.old.rest self.new.rest }
        ensures placed { self.new.placed ≡ self.old.placed }
        ensures none { result ≡ None → self.new.rest ≡ self.old.rest }
    {
        let Some(found) = self.index.get(&number) else {
            return None;
        };
        let at = *found;
        let last = at == self.start;
        let Some(live) = taken_from(&mut self.slots, at, number) else {
            return None;
        };
        self.start = first_full(&self.slots, self.start);
        Some(Taken { live, last })
    }

    /// Takes the last one out of what is to be placed.
    pub fn take_last(&mut self) -> Option<Live>
        ensures taken { IfSome result (λ l. Takes self.old.rest self.new.rest l true) }
        ensures placed { self.new.placed ≡ self.old.placed }
        ensures none { result ≡ None → self.old.rest ≡ [] }
    {
        self.start = first_full(&self.slots, self.start);
        emptied(&mut self.slots, self.start)
    }

    /// Those that are placed.
    pub fn into_placed(self) -> Lives
        ensures { result ≡ self.placed }
    {
        let Walk {
            left,
            slots,
            mut done,
            ..
        } = self;
        drop(left);
        drop(slots);
        done.reverse();
        Items::from_vec(done)
    }
}

// Whether the one with that number is in a slot.
fn is_there(slots: &[Option<Live>], at: usize, number: u128) -> bool
    ensures { result ≡ has_number number (slot slots.now at) }
{
    if at >= slots.len() {
        return false;
    }
    match &slots[at] {
        Some(live) => live.number() == number,
        None => false,
    }
}

// The first slot from that one on in which there is one, or the end.
fn first_full(slots: &[Option<Live>], from: usize) -> usize
    ensures empty { (i : ℕ) → from ≤ i → i < result → slot slots.now i ≡ None }
    ensures full { result < length slots.now → IsSome (slot slots.now result) }
    ensures from { from ≤ result }
    ensures within { from ≤ length slots.now → result ≤ length slots.now }
{
    let mut at = from;
    while at < slots.len() && slots[at].is_none() {
        at += 1;
    }
    at
}

// Takes what is in a slot.
fn emptied(slots: &mut Vec<Option<Live>>, at: usize) -> Option<Live>
    ensures value { result ≡ slot slots.old.items at }
    ensures after { slots.new.items ≡ slice_set slots.old.items at None }
{
    if at < slots.len() {
        slots[at].take()
    } else {
        None
    }
}

// Takes the one with that number out of a slot, if it is there.
fn taken_from(slots: &mut Vec<Option<Live>>, at: usize, number: u128) -> Option<Live>
    ensures value { result ≡ (if has_number number (slot slots.old.items at) then slot slots.old.items at else None) }
    ensures after { slots.new.items ≡ (if has_number number (slot slots.old.items at) then slice_set slots.old.items at None else slots.old.items) }
{
    if is_there(slots, at, number) {
        emptied(slots, at)
    } else {
        None
    }
}
