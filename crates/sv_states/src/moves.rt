// Where `$` names move to.
ghost use Rattle.std.specs.Prelude.{◌≡◌, ◌≤◌, ◌+◌, ◌∷◌, [], length, All, IfOk};
ghost use Rattle.sv_value.specs.View.{view_of};
ghost use Rattle.sv_store.specs.Stores.{subscribers_at};
ghost use Rattle.sv_instance.specs.Subscriptions.{is_cell};
ghost use Rattle.sv_states.specs.Moving.{goal_of, stores_after};
ghost use Rattle.sv_states.specs.Moves.{goal_seen, moves_seen, AreReady};

use crate::board::Board;
use crate::copies::Copies;
use std::alloc::Global;
use sv_base::NoMemory;
use sv_store::{Seat, Stores};
use sv_value::Value;

// A store, and the value that a `$` name has that looks at it.
#[derive(Drop)]
pub(crate) struct Goal {
    pub(crate) store: u32,
    pub(crate) value: Value,
}

// What `$` names that move to a store take: copies of its value, and seats among its subscribers, all made ahead.
#[derive(Drop)]
pub(crate) struct Moves {
    pub(crate) store: u32,
    pub(crate) values: Copies,
    pub(crate) seats: Vec<Seat>,
}

impl Board {
    // Where the `$` name of a variable with a value looks once a store, if any, is set to the value.
    pub(crate) fn goal(&self, set: Option<u32>, value: &Value) -> Result<Option<Goal>, NoMemory>
        ensures { IfOk result (λ goal. goal_seen goal ≡ goal_of (stores_after set (view_of value.now) self.now.stores) (view_of value.now)) }
    {
        let Value::Store(id) = value else {
            return Ok(None);
        };
        let Some(held) = self.stores.value(*id) else {
            return Ok(None);
        };
        let shown = if is_to(set, *id) { value } else { held };
        Ok(Some(Goal {
            store: *id,
            value: shown.share()?,
        }))
    }
}

impl Moves {
    // What so many moves take.
    pub(crate) fn to(
        alloc: Global,
        stores: &Stores,
        goal: Option<Goal>,
        count: usize,
    ) -> Result<Option<Moves>, NoMemory>
        ensures seen { IfOk result (λ moves. moves_seen moves ≡ goal_seen goal) }
        ensures ready { IfOk result (AreReady stores.now count) }
    {
        match goal {
            Some(Goal { store, value }) => Ok(Some(Moves {
                store,
                values: Copies::of(alloc, value, count)?,
                seats: seats(alloc, stores, store, count)?,
            })),
            None => Ok(None),
        }
    }
}

// Whether a value goes to this store.
fn is_to(set: Option<u32>, id: u32) -> bool
    ensures { result ≡ is_cell set id }
{
    match set {
        Some(store) => store == id,
        None => false,
    }
}

// The store that a `$` name looks at.
pub(crate) fn store_of(goal: &Option<Goal>) -> Option<u32>
    ensures { result ≡ (goal_seen goal.now).store }
{
    match goal {
        Some(goal) => Some(goal.store),
        None => None,
    }
}

// The value that it has.
pub(crate) fn value_of(goal: Option<Goal>) -> Value
    ensures { view_of result ≡ (goal_seen goal).value }
{
    match goal {
        Some(goal) => goal.value,
        None => Value::Undefined,
    }
}

// Seats for so many subscribers more.
fn seats(alloc: Global, stores: &Stores, store: u32, count: usize) -> Result<Vec<Seat>, NoMemory>
    ensures count { IfOk result (λ seats. length seats.items ≡ count) }
    ensures room { IfOk result (λ seats. All (λ seat. length (subscribers_at stores.now store) + count ≤ seat) seats.items) }
{
    let mut seats = Vec::new(alloc);
    for _seat in 0..count {
        let seat = stores.seat(store, count)?;
        seats.push(seat)?;
    }
    Ok(seats)
}
