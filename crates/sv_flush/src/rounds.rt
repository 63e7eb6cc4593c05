// What a flush still has to do.
ghost use Rattle.std.specs.Prelude.{◌≡◌, ◌++◌, ◌∷◌, [], ℕ, map, option_map, not, if◌then◌else◌, reverse, IfOk, OnOk, OnErr, slice_get};
ghost use Rattle.std.specs.List.{filter, list_any};
ghost use Rattle.sv_flush.specs.Rounds.{no_rounds, with_binding, with_waiting, same_ran, has_run, with_ran, callback_of, waiting_callbacks, is_no_binding_of, is_of_other, forgotten};
ghost use Rattle.sv_flush.specs.Waits.{binding_of, waiting_of, ran_of};

use crate::waiting::{Binding, Waiting};
use std::alloc::Global;
use std::marker::Model;
use std::mem;
use sv_base::NoMemory;
use sv_value::Inst;

// An `afterUpdate` callback that ran in this flush.
#[derive(Clone, Copy)]
struct Ran {
    number: u64,
    at: usize,
}

/// The binding callbacks, the last pushed last, the render queue in order, and the `afterUpdate` callbacks that ran in this
/// flush.
#[derive(Drop)]
pub struct Rounds {
    alloc: Global,
    bindings: Vec<Binding>,
    render: Vec<Waiting>,
    ran: Vec<Ran>,
}

impl Model for Rounds {
    ghost use Rattle.sv_flush.specs.Rounds.{Rounds, rounds_code};

    ghost Value = { Rounds };

    ghost coded = { rounds_code };

    ghost use Rattle.std.specs.Prelude.{map};
    ghost use Rattle.sv_flush.specs.Waits.{binding_of, waiting_of, ran_of};

    ghost view = { λ r. record { bindings = map binding_of r.bindings.items; render = map waiting_of r.render.items; ran = map ran_of r.ran.items } };
}

impl Rounds {
    /// Nothing to do.
    pub fn new(alloc: Global) -> Rounds
        ensures { result ≡ no_rounds }
    {
        Rounds {
            alloc,
            bindings: Vec::new(alloc),
            render: Vec::new(alloc),
            ran: Vec::new(alloc),
        }
    }

    /// Pushes a binding callback.
    pub fn push_binding(&mut self, binding: Binding) -> Result<(), NoMemory>
        ensures ok { OnOk result (self.new ≡ with_binding self.old (binding_of binding)) }
        ensures err { OnErr result (self.new ≡ self.old) }
    {
        self.bindings.push(binding)?;
        Ok(())
    }

    /// Takes all binding callbacks, the last pushed first.
    pub fn take_bindings(&mut self) -> Vec<Binding>
        ensures taken { map binding_of result.items ≡ reverse self.old.bindings }
        ensures left { self.new ≡ record self.old { bindings = [] } }
    {
        let mut bindings = mem::replace(&mut self.bindings, Vec::new(self.alloc));
        bindings.reverse();
        bindings
    }

    /// Puts an entry at the end of the render queue.
    pub fn push_waiting(&mut self, waiting: Waiting) -> Result<(), NoMemory>
        ensures ok { OnOk result (self.new ≡ with_waiting self.old (waiting_of waiting)) }
        ensures err { OnErr result (self.new ≡ self.old) }
    {
        self.render.push(waiting)?;
        Ok(())
    }

    /// Takes the whole render queue, in its order.
    pub fn take_waiting(&mut self) -> Vec<Waiting>
        ensures taken { map waiting_of result.items ≡ self.old.render }
        ensures left { self.new ≡ record self.old { render = [] } }
    {
        mem::replace(&mut self.render, Vec::new(self.alloc))
    }

    /// Notes that an `afterUpdate` callback runs in this flush; `false` exactly where it ran already.
    pub fn mark_ran(&mut self, inst: Inst, at: usize) -> Result<bool, NoMemory>
        ensures fresh { IfOk result (λ fresh. fresh ≡ not (has_run self.old inst.number at)) }
        ensures ok { OnOk result (self.new ≡ with_ran self.old inst.number at) }
        ensures err { OnErr result (self.new ≡ self.old) }
    {
        let number = inst.number;
        if is_among(&self.ran, number, at) {
            return Ok(false);
        }
        self.ran.push(Ran { number, at })?;
        Ok(true)
    }

    /// The places of the `afterUpdate` callbacks of an instance that stand in the render queue and haven't run in this flush,
    /// in the queue's order.
    pub fn queued_after(&self, inst: Inst) -> Result<Vec<usize>, NoMemory>
        ensures { IfOk result (λ places. places.items ≡ waiting_callbacks self.now inst.number) }
    {
        let mut places = Vec::new(self.alloc);
        for waiting in &self.render {
            if let Some(at) = self.callback_of(*waiting, inst.number) {
                places.push(at)?;
            }
        }
        Ok(places)
    }

    // The place of an `afterUpdate` callback of an instance that hasn't run.
    fn callback_of(&self, waiting: Waiting, number: u64) -> Option<usize>
        ensures { result ≡ callback_of self.now number (waiting_of waiting) }
    {
        match waiting {
            Waiting::AfterUpdate(inst, at)
                if inst.number == number && !is_among(&self.ran, number, at) => { Some(at) }
            _ => None,
        }
    }

    /// All entries of an instance go, and the binding callbacks of which it is the child or the owner.
    pub fn forget(&mut self, inst: Inst)
        ensures { self.new ≡ forgotten self.old inst.number }
    {
        drop_bindings(&mut self.bindings, inst.number);
        drop_waiting(&mut self.render, inst.number);
    }

    /// The flush is over: none of the callbacks has run in the next one.
    pub fn end_flush(&mut self)
        ensures { self.new ≡ record self.old { ran = [] } }
    {
        self.ran.clear();
    }
}

fn is_among(ran: &[Ran], number: u64, at: usize) -> bool
    ensures { result ≡ list_any (same_ran number at) (map ran_of ran.now) }
{
    for other in ran {
        if other.number == number && other.at == at {
            return true;
        }
    }
    false
}

fn drop_bindings(bindings: &mut Vec<Binding>, number: u64)
    ensures { map binding_of bindings.new.items ≡ filter (is_no_binding_of number) (map binding_of bindings.old.items) }
{
    bindings.retain(|binding| {
        binding.child.number != number && binding.bound.owner.number != number
    });
}

fn drop_waiting(render: &mut Vec<Waiting>, number: u64)
    ensures { map waiting_of render.new.items ≡ filter (is_of_other number) (map waiting_of render.old.items) }
{
    render.retain(|waiting| waiting.inst().number != number);
}
