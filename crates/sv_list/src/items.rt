// Lists.
ghost use Rattle.std.specs.Iterator.Adapters.{IterYieldsInOrder, IterYieldsInReverse};
ghost use Rattle.std.specs.Prelude.{◌≡◌, ◌<◌, ◌^◌, ◌↔◌, [], ◌∷◌, ◌++◌, length, take, IsTrue, IfOk, OnOk, OnErr};
ghost use Rattle.std.specs.Slice.Iter.{iter_rest};

use std::alloc::Global;
use std::marker::Model;
use std::slice;
use sv_base::NoMemory;

/// A list that grows at its end. A clause sees it as the list of its items, without the buffer that holds them.
#[derive(Drop)]
pub struct Items<T> {
    buffer: Vec<T>,
}

impl<T> Model for Items<T> {
    ghost use Rattle.std.specs.Prelude.{List};
    ghost use Rattle.std.specs.Coded.{coded_list};

    ghost Value = { List T };

    ghost coded = { coded_list T.code };

    ghost view = { λ list. list.buffer.items };
}

impl<T> Items<T> {
    /// The empty list, which takes no memory.
    pub fn new(alloc: Global) -> Items<T>
        ensures { result ≡ [] }
    {
        Items {
            buffer: Vec::new(alloc),
        }
    }

    /// The list of what a buffer holds.
    pub fn from_vec(buffer: Vec<T>) -> Items<T>
        ensures { result ≡ buffer.items }
    {
        Items { buffer }
    }

    /// The buffer that holds its items.
    pub fn into_vec(self) -> Vec<T>
        ensures { result.items ≡ self }
    {
        self.buffer
    }

    /// How many items it has.
    pub fn len(&self) -> usize
        ensures { result ≡ length self.now }
    {
        self.buffer.len()
    }

    /// Whether it has none.
    pub fn is_empty(&self) -> bool
        ensures { IsTrue result ↔ (self.now ≡ []) }
    {
        self.buffer.is_empty()
    }

    /// Its items in order.
    pub fn as_slice(&self) -> &[T]
        ensures { result.now ≡ self.now }
    {
        self.buffer.as_slice()
    }

    /// Its items, one after the other.
    pub fn iter(&self) -> slice::Iter<'_, T>
        ensures rest { iter_rest result ≡ self.now }
        ensures bound { length (iter_rest result) < 2 ^ 64 }
        ensures runs { IterYieldsInOrder T }
        ensures runs_back { IterYieldsInReverse T }
    {
        self.buffer.iter()
    }
}

impl<T: Drop> Items<T> {
    /// Puts `item` at the end. A list that finds no memory stays as it was.
    pub fn push(&mut self, item: T) -> Result<(), NoMemory>
        ensures ok { OnOk result (self.new ≡ self.old ++ item ∷ []) }
        ensures err { OnErr result (self.new ≡ self.old) }
    {
        self.buffer.push(item)?;
        Ok(())
    }
}

impl<T: Copy> Items<T> {
    /// A list of the same items.
    pub fn copy_of(alloc: Global, items: &[T]) -> Result<Items<T>, NoMemory>
        ensures { IfOk result (λ list. list ≡ items.now) }
    {
        let mut list = Items::new(alloc);
        list.extend_from_slice(items)?;
        Ok(list)
    }

    /// Puts the same items at the end. Where memory runs out, some of them may have been put there.
    pub fn extend_from_slice(&mut self, items: &[T]) -> Result<(), NoMemory>
        ensures ok { OnOk result (self.new ≡ self.old ++ items.now) }
        ensures err { OnErr result (take (length self.old) self.new ≡ self.old) }
    {
        for item in items {
            self.push(*item)?;
        }
        Ok(())
    }
}

impl<'a, T> IntoIterator for &'a Items<T> {
    ghost use Rattle.std.specs.Prelude.{◌≡◌, ◌<◌, ◌^◌, length};
    ghost use Rattle.std.specs.Iterator.Adapters.{IterYieldsInOrder};
    ghost use Rattle.std.specs.Slice.Iter.{iter_rest};

    type Item = &'a T;

    type IntoIter = slice::Iter<'a, T>;

    ghost into_iter_gives = { λ list it. (iter_rest it ≡ list.now) × (length (iter_rest it) < 2 ^ 64) × IterYieldsInOrder T };

    fn into_iter(self) -> slice::Iter<'a, T> {
        self.iter()
    }
}
