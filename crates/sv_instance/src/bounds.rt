// Props that are bound to variables of the owner.
ghost use Rattle.std.specs.Prelude.{◌≡◌, ◌==◌, [], ◌∷◌, OnOk, OnErr, option_map};
ghost use Rattle.sv_instance.specs.Bound.{bound_at};
ghost use Rattle.sv_instance.specs.Binds.{bound_of, bounds_of};

use std::alloc::Global;
use std::marker::Model;
use sv_base::NoMemory;
use sv_value::Inst;

/// A prop that is bound: its cell, and the variable of the owner that it is bound to.
#[derive(Clone, Copy, PartialEq, Eq, Debug)]
pub struct Bound {
    pub cell: u8,
    pub owner: Inst,
    pub target: u8,
}

/// The bound props of an instance, the last bound first.
#[derive(Drop)]
pub struct Bounds {
    list: Vec<Bound>,
}

impl Model for Bounds {
    ghost use Rattle.std.specs.Prelude.{List};
    ghost use Rattle.std.specs.Coded.{coded_list};
    ghost use Rattle.sv_instance.specs.Bound.{Bound, bound_code};

    ghost Value = { List Bound };

    ghost coded = { coded_list bound_code };

    ghost use Rattle.sv_instance.specs.Binds.{bounds_of};

    ghost view = { λ b. bounds_of b.list.items };
}

impl Bounds {
    /// No bound props.
    pub fn new(alloc: Global) -> Bounds
        ensures { result ≡ [] }
    {
        Bounds {
            list: Vec::new(alloc),
        }
    }

    /// One more bound prop, which takes the place of an earlier binding of its cell.
    pub fn add(&mut self, bound: Bound) -> Result<(), NoMemory>
        ensures ok { OnOk result (self.new ≡ bound_of bound ∷ self.old) }
        ensures err { OnErr result (self.new ≡ self.old) }
    {
        self.list.insert(0, bound)?;
        Ok(())
    }

    /// What a cell is bound to, or `None` exactly where it is no bound prop.
    pub fn find(&self, cell: u8) -> Option<Bound>
        ensures { option_map bound_of result ≡ bound_at self.now cell }
    {
        find_bound(&self.list, cell)
    }
}

fn find_bound(list: &[Bound], cell: u8) -> Option<Bound>
    ensures { option_map bound_of result ≡ bound_at (bounds_of list.now) cell }
{
    for bound in list {
        if bound.cell == cell {
            return Some(*bound);
        }
    }
    None
}
