// The stores that an instance looks at.
ghost use Rattle.std.specs.Prelude.{◌≡◌, ◌++◌, ◌∷◌, [], IfOk, OnOk};
ghost use Rattle.sv_instance.specs.Subscriptions.{subscription_at, follower_of, placed, moved_to};

use std::alloc::Global;
use std::marker::Model;
use sv_base::NoMemory;

/// A `$` name: its cell; the cell of the variable that it stands for, where it stands for one; and the store whose value it has, where there
/// is one.
#[derive(Clone, Copy, PartialEq, Eq, Debug)]
pub struct Subscription {
    pub cell: u8,
    pub source: Option<u8>,
    pub store: Option<u32>,
}

/// The `$` names of an instance, in order.
#[derive(Drop)]
pub struct Subscriptions {
    alloc: Global,
    list: Vec<Subscription>,
}

impl Model for Subscriptions {
    ghost use Rattle.std.specs.Prelude.{List};
    ghost use Rattle.sv_instance.specs.declared.subscriptions.Subscription.{Subscription};

    ghost Value = { List Subscription };

    ghost view = { λ s. s.list.items };
}

impl Subscriptions {
    /// No `$` names.
    pub fn new(alloc: Global) -> Subscriptions
        ensures { result ≡ [] }
    {
        Subscriptions {
            alloc,
            list: Vec::new(alloc),
        }
    }

    /// These and one more, as a list of its own.
    pub fn with(&self, subscription: Subscription) -> Result<Subscriptions, NoMemory>
        ensures { IfOk result (λ s. s ≡ self.now ++ subscription ∷ []) }
    {
        let mut list = Vec::from_slice(self.alloc, &self.list)?;
        list.push(subscription)?;
        Ok(Subscriptions {
            alloc: self.alloc,
            list,
        })
    }

    /// The subscription of a cell, or `None` exactly where it is no `$` name's.
    pub fn find(&self, cell: u8) -> Option<Subscription>
        ensures { result ≡ subscription_at self.now cell }
    {
        find_in(&self.list, cell)
    }

    /// The cell of the `$` name of a variable, or `None` exactly where it has none.
    pub fn follower(&self, cell: u8) -> Option<u8>
        ensures { result ≡ follower_of self.now cell }
    {
        follower_in(&self.list, cell)
    }

    /// From now on a `$` name has the value of a store, or of none. Where there is no such name, nothing changes.
    pub fn move_to(&mut self, cell: u8, store: Option<u32>)
        ensures { self.new ≡ moved_to self.old cell store }
    {
        move_in(&mut self.list, cell, store);
    }
}

fn find_in(list: &[Subscription], cell: u8) -> Option<Subscription>
    ensures { result ≡ subscription_at list.now cell }
{
    for subscription in list {
        if subscription.cell == cell {
            return Some(*subscription);
        }
    }
    None
}

fn follower_in(list: &[Subscription], cell: u8) -> Option<u8>
    ensures { result ≡ follower_of list.now cell }
{
    for subscription in list {
        if subscription.source == Some(cell) {
            return Some(subscription.cell);
        }
    }
    None
}

fn move_in(list: &mut [Subscription], cell: u8, store: Option<u32>)
    ensures { list.new ≡ moved_to list.old cell store }
{
    for index in 0..list.len() {
        place(&mut list[index], cell, store);
    }
}

fn place(subscription: &mut Subscription, cell: u8, store: Option<u32>)
    ensures { subscription.new ≡ placed cell store subscription.old }
{
    if subscription.cell == cell {
        subscription.store = store;
    }
}
