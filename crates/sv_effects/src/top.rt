// What the top level of a file declares.
ghost use Rattle.std.specs.Prelude.{◌≡◌, ◌∷◌, [], IfOk, OnOk};
ghost use Rattle.sv_names.specs.Distinct.{with_names};
ghost use Rattle.std.specs.Option.{option_to_list};
ghost use Rattle.sv_effects.specs.Top as spec;

use crate::locals::declare_stmts;
use std::alloc::Global;
use sv_ast::{AssignOp, Decl, ExprKind, Ref, Stmt, StmtKind};
use sv_base::built_in::CONVERSIONS;
use sv_base::{Names, NoMemory};
use sv_names::Distinct;

/// The names of the top level of a file.
#[derive(Drop)]
pub(crate) struct Top {
    declared: Distinct,
    variables: Distinct,
    reactives: Distinct,
}

impl Top {
    pub(crate) fn new(alloc: Global, stmts: &[Stmt]) -> Result<Top, NoMemory>
        ensures { IfOk result (λ top. top ≡ spec.top_of stmts.now) }
    {
        let mut declared = Distinct::new(alloc);
        declare_stmts(&mut declared, stmts)?;
        Ok(Top {
            declared,
            variables: variables(alloc, stmts)?,
            reactives: reactives(alloc, stmts)?,
        })
    }

    /// Whether a name is that of a variable: by `let` or `export let`, or by `$: x = e` alone.
    pub(crate) fn is_variable(&self, name: Ref) -> bool
        ensures { result ≡ spec.is_variable self.now name }
    {
        self.variables.has(name) || self.reactives.has(name) && !self.declared.has(name)
    }

    /// Whether a name is `String` or `Boolean`, and isn't declared anew.
    pub(crate) fn is_free_call(&self, names: &Names, name: Ref) -> bool
        ensures { result ≡ spec.is_free_call names.now self.now name }
    {
        is_conversion(names, name) && !self.declared.has(name) && !self.reactives.has(name)
    }
}

fn is_conversion(names: &Names, name: Ref) -> bool
    ensures { result ≡ spec.is_conversion names.now name }
{
    match name {
        Ref::Plain(name) => names.is_one_of(name, &CONVERSIONS),
        Ref::Store(_) => false,
    }
}

fn variables(alloc: Global, stmts: &[Stmt]) -> Result<Distinct, NoMemory>
    ensures { IfOk result (λ names. names ≡ with_names [] (spec.variables stmts.now)) }
{
    let mut variables = Distinct::new(alloc);
    for stmt in stmts {
        add_variables(&mut variables, stmt)?;
    }
    Ok(variables)
}

fn add_variables(variables: &mut Distinct, stmt: &Stmt) -> Result<(), NoMemory>
    ensures { OnOk result (variables.new ≡ with_names variables.old (spec.stmt_variables stmt.now)) }
{
    match stmt.kind.get() {
        StmtKind::Let(decls) | StmtKind::Export(decls) => add_decls(variables, decls.as_slice()),
        _ => Ok(()),
    }
}

fn add_decls(variables: &mut Distinct, decls: &[Decl]) -> Result<(), NoMemory>
    ensures { OnOk result (variables.new ≡ with_names variables.old (spec.decl_names decls.now)) }
{
    for decl in decls {
        variables.add(Ref::Plain(decl.name.name))?;
    }
    Ok(())
}

fn reactives(alloc: Global, stmts: &[Stmt]) -> Result<Distinct, NoMemory>
    ensures { IfOk result (λ names. names ≡ with_names [] (spec.reactives stmts.now)) }
{
    let mut reactives = Distinct::new(alloc);
    for stmt in stmts {
        add_reactive(&mut reactives, stmt)?;
    }
    Ok(reactives)
}

fn add_reactive(reactives: &mut Distinct, stmt: &Stmt) -> Result<(), NoMemory>
    ensures { OnOk result (reactives.new ≡ with_names reactives.old (spec.reactive stmt.now)) }
{
    match reactive(stmt) {
        Some(name) => reactives.add(name),
        None => Ok(()),
    }
}

// The name `x` of a statement `$: x = e`.
fn reactive(stmt: &Stmt) -> Option<Ref>
    ensures { option_to_list result ≡ spec.reactive stmt.now }
{
    let StmtKind::React(of) = stmt.kind.get() else {
        return None;
    };
    let StmtKind::Eval(value) = of.kind.get() else {
        return None;
    };
    match value.kind.get() {
        ExprKind::Assign {
            target,
            op: AssignOp::Set,
            ..
        } => Some(*target),
        _ => None,
    }
}
