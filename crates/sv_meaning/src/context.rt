// Where code runs.
ghost use Rattle.std.specs.Prelude.{◌≡◌, ◌≤◌, map, Some, None, false, option_map, option_copied, slice_get};
ghost use Rattle.sv_value.specs.View.{view_of};
ghost use Rattle.sv_code.specs.declared.functions.TheConstants.{WRITABLE};
ghost use Rattle.sv_ops.specs.declared.faults.FaultKind.TheVariants.{UseBeforeInit};
ghost use Rattle.sv_ops.specs.Answers.{Answers};
ghost use Rattle.sv_world.specs.declared.world.World.{World as Worlds};
ghost use Rattle.sv_view.specs.Constants.{module_constant_at};
ghost use Rattle.sv_meaning.specs.Context.{ground_of};
ghost use Rattle.sv_meaning.specs.Env.{Env, look};
ghost use Rattle.sv_meaning.specs.Gives.{Gives, EndsAs};
ghost use Rattle.sv_meaning.specs.Outcome.{given};
ghost use Rattle.sv_meaning.specs.Sight.{read, put, cell_seen, cell_put, local_set, constant_seen, modules_seen};

use crate::counting::{answer, assigned, fault};
use crate::errors::EvalError;
use crate::limits::CALL_LIMIT;
use crate::locals::Locals;
use std::alloc::Global;
use sv_base::{Name, Span};
use sv_code::{Arrows, Known, Program, WRITABLE};
use sv_ops::{FaultKind, function_of};
use sv_value::{Inst, Value};
use sv_view::{At, View};
use sv_world::World;

/// What stays the same while the body of a function runs: the program; the view on which a pure evaluation runs, in place of the
/// world, the arrows that are written in its part, and whether the code that runs is the part's own; whose code it is, an instance or a
/// module file, which has number 0; and how many calls may still be open.
#[derive(Clone, Copy)]
pub struct Context<'a> {
    pub alloc: Global,
    pub program: &'a Program,
    pub sight: Option<&'a View>,
    pub arrows: Arrows,
    pub is_own: bool,
    pub owner: Inst,
    pub room: u32,
}

/// Where a script runs: in the world itself, with no call open.
pub fn script_context(alloc: Global, program: &Program, owner: Inst) -> Context<'_>
    ensures { result ≡ record { alloc = alloc; program = program.entry; sight = None; arrows = record { from = 0; to = 0 }; is_own = false; owner = owner; room = CALL_LIMIT } }
{
    Context {
        alloc,
        program,
        sight: None,
        arrows: Arrows { from: 0, to: 0 },
        is_own: false,
        owner,
        room: CALL_LIMIT,
    }
}

impl Context<'_> {
    // The value of a cell of the owner. In a pure evaluation only the part's own code sees cells.
    fn cell<'b>(&'b self, world: &'b World, cell: u8) -> Option<&'b Value>
        ensures { option_map view_of (option_copied result) ≡ cell_seen (option_copied self.now.sight) self.now.is_own self.now.owner.number cell world.now }
    {
        match self.sight {
            Some(view) => {
                if self.is_own {
                    view.look(At::Cell(cell))
                } else {
                    None
                }
            }
            None => match world.cell(self.owner, cell) {
                Some(cell) => Some(&cell.value),
                None => None,
            },
        }
    }

    // The value of a constant of a module file.
    fn module_constant<'b>(
        &'b self,
        world: &'b World,
        file: u16,
        constant: u32,
    ) -> Option<&'b Value>
        ensures { option_map view_of (option_copied result) ≡ module_constant_at (modules_seen (option_copied self.now.sight) world.now) file constant }
    {
        match self.sight {
            Some(view) => view.module_constant(file, constant),
            None => world.modules.get(file, constant),
        }
    }

    // The value of a constant of the file in which code is written.
    fn constant<'b>(&'b self, world: &'b World, file: u16, constant: u32) -> Option<&'b Value>
        ensures { option_map view_of (option_copied result) ≡ constant_seen (option_copied self.now.sight) self.now.owner.number file constant world.now }
    {
        if self.owner.number == 0 {
            return self.module_constant(world, file, constant);
        }
        match self.sight {
            Some(view) => view.constant(constant),
            None => world.constant(self.owner, constant),
        }
    }

    /// The value of a name; `UseBeforeInit` exactly where its declaration hasn't run.
    pub fn read(
        &self,
        world: &mut World,
        locals: &Locals,
        name: Known,
        span: Span,
    ) -> Result<Value, EvalError>
        ensures means { Gives view_of result locals.now world.new (read (ground_of self.now) self.now.owner.number name span locals.now world.old) }
        ensures fewer { world.new.turn.steps ≤ world.old.turn.steps }
    {
        match name {
            Known::Local(name) => found(locals.get(name), span),
            Known::Cell(cell) => found(self.cell(world, cell), span),
            Known::Constant(constant) => found(self.constant(world, span.file, constant), span),
            Known::Export { file, constant } => {
                found(self.module_constant(world, file, constant), span)
            }
            Known::Writable => {
                let module = Inst { key: 0, number: 0 };
                let made = function_of(self.alloc, WRITABLE, module, Vec::new(self.alloc));
                answer(world, made, span)
            }
            Known::Life(_) | Known::Derived | Known::BuiltIn(_) => Ok(Value::Undefined),
        }
    }

    /// Assigns a value to a name, and gives it, before derived stores settle; `UseBeforeInit` exactly where its declaration hasn't run, or else
    /// `NoMember` where a derived store would be set. A pure evaluation changes no cell.
    pub fn put(
        &self,
        world: &mut World,
        locals: &mut Locals,
        name: Known,
        value: Value,
        span: Span,
    ) -> Result<Value, EvalError>
        ensures means { Gives view_of result locals.new world.new (put (ground_of self.now) self.now.owner.number name (view_of value) span locals.old world.old) }
        ensures fewer { world.new.turn.steps ≤ world.old.turn.steps }
    {
        match name {
            Known::Local(name) => put_local(locals, name, value, span),
            Known::Cell(cell) => self.put_cell(world, cell, value, span),
            _ => Ok(value),
        }
    }

    fn put_cell(
        &self,
        world: &mut World,
        cell: u8,
        value: Value,
        span: Span,
    ) -> Result<Value, EvalError>
        ensures means { (env : Env) → Gives view_of result env world.new (cell_put (cell_seen (option_copied self.now.sight) self.now.is_own self.now.owner.number cell world.old) (ground_of self.now) self.now.owner.number cell (view_of value) span env world.old) }
        ensures fewer { world.new.turn.steps ≤ world.old.turn.steps }
    {
        if self.cell(world, cell).is_none() {
            return Err(fault(FaultKind::UseBeforeInit, span));
        }
        if self.sight.is_none() {
            assigned(world.assign(self.owner, cell, value.share()?), span)?;
        }
        Ok(value)
    }
}

// The value that a name has, or a fault.
fn found(value: Option<&Value>, span: Span) -> Result<Value, EvalError>
    ensures { (w : Worlds) → EndsAs view_of result w (given UseBeforeInit span (option_map view_of (option_copied value.entry)) w) }
{
    match value {
        Some(value) => Ok(value.share()?),
        None => Err(fault(FaultKind::UseBeforeInit, span)),
    }
}

fn put_local(locals: &mut Locals, name: Name, value: Value, span: Span) -> Result<Value, EvalError>
    ensures { (w : Worlds) → Gives view_of result locals.new w (local_set (look name.0 locals.old) name.0 (view_of value) span locals.old w) }
{
    if locals.get(name).is_none() {
        return Err(fault(FaultKind::UseBeforeInit, span));
    }
    locals.give(name, value.share()?);
    Ok(value)
}
