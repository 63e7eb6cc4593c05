// Cells.
ghost use Rattle.std.specs.Prelude.{◌≡◌, IfOk};

use std::marker::Model;
use sv_base::NoMemory;
use sv_value::Value;

/// A variable of a component: its value, and how often it changed.
#[derive(Drop)]
pub struct Cell {
    pub value: Value,
    pub count: u64,
}

impl Model for Cell {
    ghost use Rattle.sv_view.specs.Cell.{Cell, cell_code};
    ghost use Rattle.sv_value.specs.View.{view_of};

    ghost Value = { Cell };

    ghost coded = { cell_code };

    ghost view = { λ c. record { value = view_of c.value; count = c.count } };
}

impl Cell {
    /// The same cell, whose value is not copied.
    pub fn share(&self) -> Result<Cell, NoMemory>
        ensures { IfOk result (λ c. c ≡ self.now) }
    {
        let value = self.value.share()?;
        Ok(Cell {
            value,
            count: self.count,
        })
    }
}
