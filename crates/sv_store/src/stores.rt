// Stores and their subscribers.
ghost use Rattle.std.specs.Prelude.{◌≡◌, ◌++◌, ◌∷◌, [], OnOk, OnErr, IfOk, length, map, option_map, option_copied, ◌+◌, ◌<◌, ◌≤◌, false};
ghost use Rattle.sv_value.specs.View.{view_of};
ghost use Rattle.sv_store.specs.Stores.{value_at, subscribers_at, made, differs_at, with_value, is_subscribed, subscribed, dropped, unsubscribed, without_subscriber, subscription_count, IsOnce, changed_at, set_to, with_subscriber, without};
ghost use Rattle.sv_store.specs.Kept.{subscriber_of, store_of, stores_of};
ghost use Rattle.sv_value.specs.Change.{differs};

use crate::seat::Seat;
use std::alloc::Global;
use std::marker::Model;
use sv_base::NoMemory;
use sv_value::{Inst, Value, differs};

/// A cell of an instance, which takes the value of the store that it is subscribed to.
#[derive(Clone, Copy, PartialEq, Eq, Debug)]
pub struct Sub {
    pub inst: Inst,
    pub cell: u8,
}

#[derive(Drop)]
struct Entry {
    value: Value,
    subscribers: Vec<Sub>,
}

/// Stores by number, from 0 (`writable` of `svelte/store`). None is ever taken away. A clause sees each as its value and its
/// subscribers in the order of their subscriptions. A cell is subscribed to one store at most, once.
#[derive(Drop)]
pub struct Stores {
    alloc: Global,
    entries: Vec<Entry>,
}

impl Model for Stores {
    ghost use Rattle.std.specs.Prelude.{List};
    ghost use Rattle.std.specs.Coded.{coded_list};
    ghost use Rattle.sv_store.specs.Stores.{Store, store_code};

    ghost Value = { List Store };

    ghost coded = { coded_list store_code };

    ghost use Rattle.sv_store.specs.Kept.{stores_of};
    ghost use Rattle.sv_store.specs.Stores.{IsOnce};

    ghost view = { λ a. stores_of a.entries.items };

    ghost invariant = { λ a. IsOnce (stores_of a.entries.items) };
}

impl Stores {
    /// No stores.
    pub fn new(alloc: Global) -> Result<Stores, NoMemory>
        ensures { IfOk result (λ stores. stores ≡ []) }
    {
        Ok(Stores {
            alloc,
            entries: Vec::new(alloc),
        })
    }

    /// A store with this value and no subscribers; its number is the next one, from 0.
    pub fn make(&mut self, value: Value) -> Result<u32, NoMemory>
        ensures number { IfOk result (λ id. id ≡ length self.old) }
        ensures ok { OnOk result (self.new ≡ made self.old (view_of value)) }
        ensures err { OnErr result (self.new ≡ self.old) }
    {
        let Ok(id) = u32::try_from(self.entries.len()) else {
            drop(value);
            return Err(NoMemory);
        };
        let subscribers = Vec::new(self.alloc);
        self.entries.push(Entry { value, subscribers })?;
        Ok(id)
    }

    /// How many stores there are.
    pub fn len(&self) -> usize
        ensures count { result ≡ length self.now }
        ensures once { IsOnce self.now }
    {
        self.entries.len()
    }

    /// The value of a store, or `None` exactly where it was never made.
    pub fn value(&self, id: u32) -> Option<&Value>
        ensures { option_map view_of (option_copied result) ≡ value_at self.now id }
    {
        let entry = self.entries.get(id as usize)?;
        Some(&entry.value)
    }

    /// Gives a store a value, where that counts as a change, and says whether it did. Where the store was never made, nothing
    /// changes.
    pub fn set(&mut self, id: u32, value: Value) -> bool
        ensures stored { self.new ≡ with_value self.old id (view_of value) }
        ensures changed { result ≡ differs_at self.old id (view_of value) }
    {
        set_value(&mut self.entries, id as usize, value)
    }

    /// The subscribers of a store in the order of their subscriptions; none where it was never made.
    pub fn subscribers(&self, id: u32) -> &[Sub]
        ensures { map subscriber_of result.now ≡ subscribers_at self.now id }
    {
        subscribers_of(&self.entries, id as usize)
    }

    /// How many subscriptions there are; `NoMemory` where no memory could hold so many.
    pub fn subscriptions(&self) -> Result<u64, NoMemory>
        ensures { IfOk result (λ count. count ≡ subscription_count self.now) }
    {
        let mut count: u64 = 0;
        for entry in &self.entries {
            let more = entry.subscribers.len() as u64;
            count = count.checked_add(more).ok_or(NoMemory)?;
        }
        Ok(count)
    }

    /// Subscribes a cell that is subscribed to no store, behind the other subscribers. Where the store was never made, nothing
    /// changes.
    pub fn subscribe(&mut self, id: u32, sub: Sub) -> Result<(), NoMemory>
        requires { is_subscribed self.old (subscriber_of sub) ≡ false }
        ensures ok { OnOk result (self.new ≡ subscribed self.old id (subscriber_of sub)) }
        ensures err { OnErr result (self.new ≡ self.old) }
    {
        push_subscriber(&mut self.entries, id as usize, sub)
    }

    /// Room for so many subscribers of a store more than it has.
    pub fn seat(&self, id: u32, more: usize) -> Result<Seat, NoMemory>
        ensures { IfOk result (λ seat. length (subscribers_at self.now id) + more ≤ seat) }
    {
        let Some(count) = self.subscribers(id).len().checked_add(more) else {
            return Err(NoMemory);
        };
        Seat::new(self.alloc, count)
    }

    /// The same as [`Stores::subscribe`], in room that was made for it.
    pub fn take_seat(&mut self, id: u32, sub: Sub, seat: Seat)
        requires free { is_subscribed self.old (subscriber_of sub) ≡ false }
        requires room { length (subscribers_at self.old id) < seat }
        ensures { self.new ≡ subscribed self.old id (subscriber_of sub) }
    {
        add_subscriber(&mut self.entries, id as usize, sub, seat);
    }

    /// Takes the subscription of a cell to a store away; the others keep their order. Where there is none, nothing changes.
    pub fn unsubscribe(&mut self, id: u32, sub: Sub)
        ensures { self.new ≡ unsubscribed self.old id (subscriber_of sub) }
    {
        remove_subscriber(&mut self.entries, id as usize, sub);
    }

    /// Takes all subscriptions of an instance away.
    pub fn drop_of(&mut self, inst: Inst)
        ensures { self.new ≡ dropped self.old inst.number }
    {
        drop_all(&mut self.entries, inst.number);
    }
}

fn set_value(entries: &mut [Entry], id: usize, value: Value) -> bool
    ensures stored { stores_of entries.new ≡ with_value (stores_of entries.old) id (view_of value) }
    ensures changed { result ≡ differs_at (stores_of entries.old) id (view_of value) }
{
    if id < entries.len() {
        return set_entry(&mut entries[id], value);
    }
    drop(value);
    false
}

fn set_entry(entry: &mut Entry, value: Value) -> bool
    ensures stored { store_of entry.new ≡ set_to (view_of value) (store_of entry.old) }
    ensures changed { result ≡ differs (view_of entry.old.value) (view_of value) }
{
    let changed = differs(&entry.value, &value);
    if changed {
        entry.value = value;
    }
    changed
}

fn subscribers_of(entries: &[Entry], id: usize) -> &[Sub]
    ensures { map subscriber_of result.now ≡ subscribers_at (stores_of entries.now) id }
{
    if id < entries.len() {
        return &entries[id].subscribers;
    }
    &[]
}

// Adds a subscriber to a store, where there is one.
fn push_subscriber(entries: &mut [Entry], id: usize, sub: Sub) -> Result<(), NoMemory>
    ensures ok { OnOk result (stores_of entries.new ≡ changed_at (with_subscriber (subscriber_of sub)) (stores_of entries.old) id) }
    ensures err { OnErr result (stores_of entries.new ≡ stores_of entries.old) }
{
    if id < entries.len() {
        push_to(&mut entries[id], sub)
    } else {
        Ok(())
    }
}

fn push_to(entry: &mut Entry, sub: Sub) -> Result<(), NoMemory>
    ensures ok { OnOk result (store_of entry.new ≡ with_subscriber (subscriber_of sub) (store_of entry.old)) }
    ensures err { OnErr result (store_of entry.new ≡ store_of entry.old) }
{
    entry.subscribers.push(sub)?;
    Ok(())
}

// The same in room that was made for it.
fn add_subscriber(entries: &mut [Entry], id: usize, sub: Sub, seat: Seat)
    requires { length (subscribers_at (stores_of entries.old) id) < seat }
    ensures { stores_of entries.new ≡ changed_at (with_subscriber (subscriber_of sub)) (stores_of entries.old) id }
{
    if id < entries.len() {
        seat.take(&mut entries[id].subscribers, sub);
    } else {
        drop(seat);
    }
}

// Takes a subscriber of a store away, where there is one.
fn remove_subscriber(entries: &mut [Entry], id: usize, sub: Sub)
    ensures { stores_of entries.new ≡ changed_at (without_subscriber (subscriber_of sub)) (stores_of entries.old) id }
{
    if id < entries.len() {
        keep_apart(&mut entries[id], sub);
    }
}

fn keep_apart(entry: &mut Entry, sub: Sub)
    ensures { store_of entry.new ≡ without_subscriber (subscriber_of sub) (store_of entry.old) }
{
    entry.subscribers.retain(|other| sub.inst.number != other.inst.number
        || sub.cell != other.cell);
}

// Takes the subscriptions of an instance away.
fn drop_all(entries: &mut [Entry], number: u64)
    ensures { stores_of entries.new ≡ dropped (stores_of entries.old) number }
{
    for index in 0..entries.len() {
        keep_others(&mut entries[index], number);
    }
}

// Takes the subscriptions of an instance to one store away.
fn keep_others(entry: &mut Entry, number: u64)
    ensures { store_of entry.new ≡ without number (store_of entry.old) }
{
    entry.subscribers.retain(|sub| sub.inst.number != number);
}
