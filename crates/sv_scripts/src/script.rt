// The statements at the top of a file.
ghost use Rattle.std.specs.Prelude.{◌≡◌, false, ◌≤◌, [], map, option_copied, IfOk, OnOk};
ghost use Rattle.sv_code.specs.declared.functions.CodeStmtKind.{out-CodeStmtKind};
ghost use Rattle.sv_value.specs.Value.{function, none};
ghost use Rattle.sv_value.specs.View.{view_of};
ghost use Rattle.sv_meaning.specs.Gives.{Gives, EndsAs, flow_of};
ghost use Rattle.sv_meaning.specs.Outcome.{Next};
ghost use Rattle.sv_meaning.specs.Runs.{function_set, functions_set, declarations, given_for, prop_given, prop_value, top_declared, top, script, world_ground, calls};
ghost use Rattle.sv_meaning.specs.Statements.{in_order, value_or, valued};
ghost use Rattle.sv_scripts.specs.Props.{given_as};

use std::alloc::Global;
use sv_base::NoMemory;
use sv_code::{CodeDecl, CodeStmt, CodeStmtKind, Known, Program};
use sv_eval::{eval_or, run};
use sv_meaning::{
    CALL_LIMIT, Context, End, EvalError, Locals, count, declare, script_context, set_constant,
};
use sv_value::{Inst, Value, make_func};
use sv_world::World;

/// A prop that was given: its cell, and its value.
pub type Given = (u8, Value);

/// A file whose script runs: whose it is, an instance or a module file, which has number 0; and the props that were given.
#[derive(Clone, Copy)]
pub(crate) struct Script<'a> {
    pub alloc: Global,
    pub program: &'a Program,
    pub owner: Inst,
    pub props: &'a [Given],
}

impl Script<'_> {
    fn context(&self) -> Context<'_>
        ensures { result ≡ record { alloc = self.now.alloc; program = self.now.program; sight = None; arrows = record { from = 0; to = 0 }; is_own = false; owner = self.now.owner; room = CALL_LIMIT } }
    {
        script_context(self.alloc, self.program, self.owner)
    }

    /// The functions of the file get their values.
    pub fn set_functions(&self, world: &mut World, stmts: &[CodeStmt]) -> Result<(), NoMemory>
        ensures { OnOk result (world.new ≡ functions_set self.now.owner.number stmts.now world.old) }
    {
        for stmt in stmts {
            self.set_function(world, stmt)?;
        }
        Ok(())
    }

    fn set_function(&self, world: &mut World, stmt: &CodeStmt) -> Result<(), NoMemory>
        ensures { OnOk result (world.new ≡ function_set self.now.owner.number stmt.now.span (out-CodeStmtKind stmt.now.kind) world.old) }
    {
        let CodeStmtKind::Function {
            target: Known::Constant(constant),
            number,
            ..
        } = stmt.kind.get()
        else {
            return Ok(());
        };
        let value = function_of(self.alloc, *number, self.owner)?;
        set_constant(world, self.owner, stmt.span.file, *constant, value)
    }

    /// The statements at the top of the file run in order, but for its reactive ones.
    pub fn run(&self, world: &mut World, stmts: &[CodeStmt]) -> Result<(), EvalError>
        ensures { EndsAs (λ u. u) result world.new (script self.now.program.now self.now.owner.number (map given_as self.now.props.now) stmts.now world.old) }
    {
        let mut locals = Locals::new(self.alloc);
        let end = self.run_all(world, &mut locals, stmts)?;
        drop(end);
        Ok(())
    }

    fn run_all(
        &self,
        world: &mut World,
        locals: &mut Locals,
        stmts: &[CodeStmt],
    ) -> Result<End, EvalError>
        ensures { Gives flow_of result locals.new world.new (in_order (map (top self.now.program.now self.now.owner.number (map given_as self.now.props.now)) stmts.now) locals.old world.old) }
    {
        for stmt in stmts {
            let end = self.run_one(world, locals, stmt)?;
            if !matches!(end, End::Next) {
                return Ok(end);
            }
        }
        Ok(End::Next)
    }

    fn run_one(
        &self,
        world: &mut World,
        locals: &mut Locals,
        stmt: &CodeStmt,
    ) -> Result<End, EvalError>
        ensures { Gives flow_of result locals.new world.new (top self.now.program.now self.now.owner.number (map given_as self.now.props.now) stmt.now locals.old world.old) }
    {
        let Some(decls) = declarations(stmt.kind.get()) else {
            return run(&self.context(), world, locals, stmt);
        };
        count(world, stmt.span)?;
        self.declare_all(world, locals, decls)
    }

    fn declare_all(
        &self,
        world: &mut World,
        locals: &mut Locals,
        decls: &[CodeDecl],
    ) -> Result<End, EvalError>
        ensures { Gives flow_of result locals.new world.new (in_order (map (top_declared self.now.program.now self.now.owner.number (map given_as self.now.props.now)) decls.now) locals.old world.old) }
    {
        for decl in decls {
            self.declare_one(world, locals, decl)?;
        }
        Ok(End::Next)
    }

    fn declare_one(
        &self,
        world: &mut World,
        locals: &mut Locals,
        decl: &CodeDecl,
    ) -> Result<(), EvalError>
        ensures { Gives (λ _. Next) result locals.new world.new (top_declared self.now.program.now self.now.owner.number (map given_as self.now.props.now) decl.now locals.old world.old) }
    {
        let given = self.given_for(decl.target)?;
        let value = self.value_or_first(world, locals, given, decl)?;
        declare(world, self.owner, decl, value)
    }

    // A prop has what was given, or its first value where that is undefined.
    fn value_or_first(
        &self,
        world: &mut World,
        locals: &mut Locals,
        given: Value,
        decl: &CodeDecl,
    ) -> Result<Value, EvalError>
        ensures { Gives view_of result locals.new world.new (prop_value (view_of given) (value_or (valued (world_ground self.now.program.now) (calls self.now.program.now) self.now.owner.number decl.now.first)) locals.old world.old) }
    {
        match given {
            Value::Undefined => eval_or(&self.context(), world, locals, decl.first.as_ref()),
            given => Ok(given),
        }
    }

    // What was given for a prop, undefined where nothing was.
    fn given_for(&self, target: Known) -> Result<Value, NoMemory>
        ensures { IfOk result (λ v. view_of v ≡ given_for (map given_as self.now.props.now) target) }
    {
        match target {
            Known::Cell(cell) => given_in(self.props, cell),
            _ => Ok(Value::Undefined),
        }
    }
}

// What a statement at the top of a file declares; `None` exactly where it declares nothing.
fn declarations(kind: &CodeStmtKind) -> Option<&[CodeDecl]>
    ensures { option_copied result ≡ declarations (out-CodeStmtKind kind.now) }
{
    match kind {
        CodeStmtKind::Let(decls)
        | CodeStmtKind::Export(decls)
        | CodeStmtKind::Const { decls, .. } => Some(decls.as_slice()),
        _ => None,
    }
}

fn given_in(props: &[Given], cell: u8) -> Result<Value, NoMemory>
    ensures { IfOk result (λ v. view_of v ≡ prop_given (map given_as props.now) cell) }
{
    for (prop, value) in props {
        if *prop == cell {
            return value.share();
        }
    }
    Ok(Value::Undefined)
}

// A function of a file, which takes nothing along.
fn function_of(alloc: Global, code: u32, owner: Inst) -> Result<Value, NoMemory>
    ensures { IfOk result (λ v. view_of v ≡ function code owner.number none) }
{
    match make_func(alloc, code, owner, Vec::new(alloc)) {
        Ok(function) => Ok(function),
        Err(_) => Err(NoMemory),
    }
}
