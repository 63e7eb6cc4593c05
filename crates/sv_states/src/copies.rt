// Copies of one value.
ghost use Rattle.std.specs.Prelude.{◌≡◌, ◌<◌, ◌-◌, length, All, IfOk};
ghost use Rattle.sv_value.specs.View.{view_of};

use std::alloc::Global;
use std::marker::Model;
use sv_base::NoMemory;
use sv_value::Value;

// A value, and copies of it that were made ahead, so that handing them out takes no memory.
#[derive(Drop)]
pub(crate) struct Copies {
    value: Value,
    list: Vec<Value>,
}

impl Model for Copies {
    ghost use Rattle.sv_states.specs.Copies.{Copies, copies_code};

    ghost Value = { Copies };

    ghost coded = { copies_code };

    ghost use Rattle.std.specs.Prelude.{◌≡◌, All, length};
    ghost use Rattle.sv_value.specs.View.{view_of};

    ghost view = { λ c. record { value = view_of c.value; left = length c.list.items } };

    ghost invariant = { λ c. All (λ v. view_of v ≡ view_of c.value) c.list.items };
}

impl Copies {
    // So many copies.
    pub(crate) fn of(alloc: Global, value: Value, count: usize) -> Result<Copies, NoMemory>
        ensures { IfOk result (λ c. c ≡ record { value = view_of value; left = count }) }
    {
        let list = shares(alloc, &value, count)?;
        Ok(Copies { value, list })
    }

    // One of them.
    pub(crate) fn take(&mut self) -> Value
        requires { 0 < self.old.left }
        ensures value { view_of result ≡ self.old.value }
        ensures left { self.new ≡ record self.old { left = self.old.left - 1 } }
    {
        let Some(value) = self.list.pop() else {
            unreachable!()
        };
        value
    }
}

fn shares(alloc: Global, value: &Value, count: usize) -> Result<Vec<Value>, NoMemory>
    ensures count { IfOk result (λ list. length list.items ≡ count) }
    ensures same { IfOk result (λ list. All (λ v. view_of v ≡ view_of value.now) list.items) }
{
    let mut list = Vec::new(alloc);
    for _copy in 0..count {
        let copy = value.share()?;
        list.push(copy)?;
    }
    Ok(list)
}
