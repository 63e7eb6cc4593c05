// Views.
ghost use Rattle.std.specs.Prelude.{◌≡◌, ◌++◌, [], map, option_map, option_copied, unwrap_or, IfOk, OnOk, slice_get};
ghost use Rattle.sv_value.specs.View.{view_of};
ghost use Rattle.sv_view.specs.Local.{local_at};
ghost use Rattle.sv_view.specs.Constants.{constant_at, module_constant_at};
ghost use Rattle.sv_view.specs.View.{started, levels_of, with_constants, with_locals, with_local, owner_of, inst_number, insts, look, version, owner_cells};

use crate::cell::Cell;
use crate::constants::{Constants, Modules};
use crate::locals::{Local, Locals};
use std::alloc::Global;
use std::marker::Model;
use std::rc::Rc;
use sv_base::{Name, NoMemory};
use sv_value::{Inst, Value};

/// What is looked at in a view: a cell of its own instance, a row local or slot prop by name, or a cell of its owner.
#[derive(Clone, Copy, PartialEq, Eq, Debug)]
pub enum At {
    Cell(u8),
    Local(Name),
    Owner(u8),
}

// What one instance gives to a view.
#[derive(Drop)]
struct Level {
    inst: Inst,
    cells: Rc<Vec<Cell>>,
    locals: Locals,
    constants: Constants,
}

impl Model for Level {
    ghost use Rattle.sv_view.specs.Level.{Level, level_code};

    ghost Value = { Level };

    ghost coded = { level_code };

    ghost view = { λ l. record { inst = l.inst.number; cells = l.cells.value.items; locals = l.locals; constants = l.constants } };
}

/// What markup is evaluated on: the cells, row locals, slot props and constants of an instance, what its owner has, where it
/// shows slot content, and so on; and the constants of the module files. It is shared with its copies and never changes.
#[derive(Drop)]
pub struct View {
    alloc: Global,
    own: Level,
    owners: Rc<Vec<Level>>,
    modules: Modules,
}

impl Model for View {
    ghost use Rattle.sv_view.specs.Level.{View, view_code};

    ghost Value = { View };

    ghost coded = { view_code };

    ghost view = { λ v. record { own = v.own; owners = v.owners.value.items; modules = v.modules } };
}

impl Level {
    fn share(&self) -> Result<Level, NoMemory>
        ensures { IfOk result (λ l. l ≡ self.now) }
    {
        let locals = self.locals.share()?;
        self.with_locals(locals)
    }

    fn with_locals(&self, locals: Locals) -> Result<Level, NoMemory>
        ensures { IfOk result (λ l. l ≡ record self.now { locals = locals }) }
    {
        let cells = self.cells.clone()?;
        let constants = self.constants.share()?;
        Ok(Level {
            inst: self.inst,
            cells,
            locals,
            constants,
        })
    }
}

impl View {
    /// The view of an instance with these cells, and with what is seen on its owner's view behind them; it has no locals and
    /// no constants.
    pub fn of(
        alloc: Global,
        inst: Inst,
        cells: Vec<Cell>,
        owner: Option<&View>,
    ) -> Result<View, NoMemory>
        ensures { IfOk result (λ v. v ≡ started inst.number cells.items (option_copied owner.entry)) }
    {
        let own = Level {
            inst,
            cells: Rc::new(alloc, cells)?,
            locals: Locals::new(alloc)?,
            constants: Constants::new(alloc, 0)?,
        };
        let owners = owner_levels(alloc, owner)?;
        let modules = Modules::new(alloc, &[])?;
        Ok(View {
            alloc,
            own,
            owners: Rc::new(alloc, owners)?,
            modules,
        })
    }

    /// The view with these constants of its instance and of the module files.
    pub fn with_constants(self, constants: Constants, modules: Modules) -> View
        ensures { result ≡ with_constants self constants modules }
    {
        let View {
            alloc,
            own,
            owners,
            modules: _,
        } = self;
        let Level {
            inst,
            cells,
            locals,
            constants: _,
        } = own;
        View {
            alloc,
            own: Level {
                inst,
                cells,
                locals,
                constants,
            },
            owners,
            modules,
        }
    }

    /// The same view, of which nothing is copied.
    pub fn share(&self) -> Result<View, NoMemory>
        ensures { IfOk result (λ v. v ≡ self.now) }
    {
        let own = self.own.share()?;
        self.with_own(own)
    }

    fn with_own(&self, own: Level) -> Result<View, NoMemory>
        ensures { IfOk result (λ v. v ≡ record self.now { own = own }) }
    {
        let owners = self.owners.clone()?;
        let modules = self.modules.share()?;
        Ok(View {
            alloc: self.alloc,
            own,
            owners,
            modules,
        })
    }

    /// The instance whose cells these are.
    pub fn inst(&self) -> Inst
        ensures { result.number ≡ self.now.own.inst }
    {
        self.own.inst
    }

    /// The instances of its levels: its own first, then its owner, the owner's owner and so on.
    pub fn insts(&self) -> Result<Vec<Inst>, NoMemory>
        ensures { IfOk result (λ all. map inst_number all.items ≡ insts self.now) }
    {
        let mut all = Vec::new(self.alloc);
        all.push(self.own.inst)?;
        for level in self.owners.as_slice() {
            all.push(level.inst)?;
        }
        Ok(all)
    }

    /// Its row locals and slot props.
    pub fn locals(&self) -> &Locals
        ensures { result.now ≡ self.now.own.locals }
    {
        &self.own.locals
    }

    /// The view with these row locals and slot props in place of its own.
    pub fn with_locals(&self, locals: Locals) -> Result<View, NoMemory>
        ensures { IfOk result (λ v. v ≡ with_locals self.now locals) }
    {
        let own = self.own.with_locals(locals)?;
        self.with_own(own)
    }

    /// The view with one more local, which hides one of its name.
    pub fn with_local(&self, name: Name, value: Value, number: u64) -> Result<View, NoMemory>
        ensures { IfOk result (λ v. v ≡ with_local self.now name.0 (view_of value) number) }
    {
        let own = &self.own;
        let locals = own.locals.with(Local {
            name,
            value,
            number,
        })?;
        self.with_locals(locals)
    }

    /// The owner's view, on which slot content is shown, or `None` exactly where there is none.
    pub fn owner(&self) -> Result<Option<View>, NoMemory>
        ensures { IfOk result (λ owner. owner ≡ owner_of self.now) }
    {
        match self.owners.as_slice() {
            [] => Ok(None),
            [first, behind @ ..] => {
                let own = first.share()?;
                let owners = copy_levels(self.alloc, behind)?;
                let modules = self.modules.share()?;
                Ok(Some(View {
                    alloc: self.alloc,
                    own,
                    owners: Rc::new(self.alloc, owners)?,
                    modules,
                }))
            }
        }
    }

    /// The value of what is looked at, or `None` exactly where the view has no such entry.
    pub fn look(&self, at: At) -> Option<&Value>
        ensures { option_map view_of (option_copied result) ≡ look self.now at }
    {
        let own = &self.own;
        match at {
            At::Cell(cell) => value_of(&own.cells, cell),
            At::Local(name) => match own.locals.find(name) {
                Some(local) => Some(&local.value),
                None => None,
            },
            At::Owner(cell) => value_of(cells_of(&self.owners), cell),
        }
    }

    /// How often a cell changed, or the number of a local; 0 where the view has no such entry.
    pub fn version(&self, at: At) -> u64
        ensures { result ≡ version self.now at }
    {
        let own = &self.own;
        match at {
            At::Cell(cell) => count_of(&own.cells, cell),
            At::Local(name) => match own.locals.find(name) {
                Some(local) => local.number,
                None => 0,
            },
            At::Owner(cell) => count_of(cells_of(&self.owners), cell),
        }
    }

    /// The value of a constant of its instance, or `None` exactly where it has none.
    pub fn constant(&self, constant: u32) -> Option<&Value>
        ensures { option_map view_of (option_copied result) ≡ constant_at self.now.own.constants constant }
    {
        let own = &self.own;
        own.constants.get(constant)
    }

    /// The value of a constant of a module file, or `None` exactly where it has none.
    pub fn module_constant(&self, file: u16, constant: u32) -> Option<&Value>
        ensures { option_map view_of (option_copied result) ≡ module_constant_at self.now.modules file constant }
    {
        self.modules.get(file, constant)
    }
}

fn owner_levels(alloc: Global, owner: Option<&View>) -> Result<Vec<Level>, NoMemory>
    ensures { IfOk result (λ levels. levels.items ≡ levels_of (option_copied owner.entry)) }
{
    let mut levels = Vec::new(alloc);
    if let Some(owner) = owner {
        levels.push(owner.own.share()?)?;
        append(&mut levels, &owner.owners)?;
    }
    Ok(levels)
}

fn copy_levels(alloc: Global, levels: &[Level]) -> Result<Vec<Level>, NoMemory>
    ensures { IfOk result (λ copy. copy.items ≡ levels.now) }
{
    let mut copy = Vec::new(alloc);
    append(&mut copy, levels)?;
    Ok(copy)
}

fn append(levels: &mut Vec<Level>, more: &[Level]) -> Result<(), NoMemory>
    ensures { OnOk result (levels.new.items ≡ levels.old.items ++ more.now) }
{
    for level in more {
        let level = level.share()?;
        levels.push(level)?;
    }
    Ok(())
}

fn cells_of(owners: &[Level]) -> &[Cell]
    ensures { result.now ≡ owner_cells owners.now }
{
    match owners {
        [] => &[],
        [first, ..] => &first.cells,
    }
}

fn value_of(cells: &[Cell], cell: u8) -> Option<&Value>
    ensures { option_map view_of (option_copied result) ≡ option_map (λ c. c.value) (slice_get cells.now cell) }
{
    let cell = cells.get(cell as usize)?;
    Some(&cell.value)
}

fn count_of(cells: &[Cell], cell: u8) -> u64
    ensures { result ≡ unwrap_or (option_map (λ c. c.count) (slice_get cells.now cell)) 0 }
{
    match cells.get(cell as usize) {
        Some(cell) => cell.count,
        None => 0,
    }
}
