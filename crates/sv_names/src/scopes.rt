// What a scope declares.
ghost use Rattle.std.specs.Prelude.{◌≡◌, [], ◌∷◌, map, option_map, IfOk, OnOk};
ghost use Rattle.sv_names.specs.Distinct.{with_names};
ghost use Rattle.sv_names.specs.Uses.{named, imported, optional, together, scope_of, head_of, body_parts, decl_parts, stmt_parts, stmt_kind_parts};

use crate::once::Distinct;
use std::alloc::Global;
use sv_ast::{Body, Decl, Import, ImportName, Named, Ref, Stmt, StmtKind};
use sv_base::NoMemory;

/// Declares a name.
pub(crate) fn declare(scope: &mut Distinct, name: &Named) -> Result<(), NoMemory>
    ensures { OnOk result (scope.new ≡ with_names scope.old (named name.now ∷ [])) }
{
    scope.add(Ref::Plain(name.name))
}

/// Declares parameters.
pub(crate) fn declare_all(scope: &mut Distinct, names: &[Named]) -> Result<(), NoMemory>
    ensures { OnOk result (scope.new ≡ with_names scope.old (map named names.now)) }
{
    for name in names {
        declare(scope, name)?;
    }
    Ok(())
}

fn declare_decls(scope: &mut Distinct, decls: &[Decl]) -> Result<(), NoMemory>
    ensures { OnOk result (scope.new ≡ with_names scope.old (together (map decl_parts decls.now)).declares) }
{
    for decl in decls {
        declare(scope, &decl.name)?;
    }
    Ok(())
}

fn declare_specs(scope: &mut Distinct, specs: &[ImportName]) -> Result<(), NoMemory>
    ensures { OnOk result (scope.new ≡ with_names scope.old (map (λ spec. named spec.local) specs.now)) }
{
    for spec in specs {
        declare(scope, &spec.local)?;
    }
    Ok(())
}

fn declare_import(scope: &mut Distinct, import: &Import) -> Result<(), NoMemory>
    ensures { OnOk result (scope.new ≡ with_names scope.old (imported import.now)) }
{
    if let Some(whole) = &import.whole {
        declare(scope, whole)?;
    }
    declare_specs(scope, import.names.as_slice())
}

/// Declares what a statement declares in the scope round it.
pub(crate) fn declare_stmt(scope: &mut Distinct, stmt: &Stmt) -> Result<(), NoMemory>
    ensures { OnOk result (scope.new ≡ with_names scope.old (stmt_parts stmt.now).declares) }
{
    declare_kind(scope, stmt.kind.get())
}

fn declare_kind(scope: &mut Distinct, kind: &StmtKind) -> Result<(), NoMemory>
    ensures { OnOk result (scope.new ≡ with_names scope.old (stmt_kind_parts kind.now).declares) }
{
    match kind {
        StmtKind::Let(decls) => declare_decls(scope, decls.as_slice()),
        StmtKind::Const { decls, .. } => declare_decls(scope, decls.as_slice()),
        StmtKind::Export(decls) => declare_decls(scope, decls.as_slice()),
        StmtKind::Import(import) => declare_import(scope, import),
        StmtKind::Func { name, .. } => declare(scope, name),
        StmtKind::Empty
        | StmtKind::Block(_)
        | StmtKind::If { .. }
        | StmtKind::While { .. }
        | StmtKind::For { .. }
        | StmtKind::Each { .. }
        | StmtKind::Break
        | StmtKind::Continue
        | StmtKind::Return(_)
        | StmtKind::Eval(_)
        | StmtKind::React(_) => Ok(()),
    }
}

/// Declares what the statements of a block declare in it.
pub(crate) fn declare_stmts(scope: &mut Distinct, stmts: &[Stmt]) -> Result<(), NoMemory>
    ensures { OnOk result (scope.new ≡ with_names scope.old (together (map stmt_parts stmts.now)).declares) }
{
    for stmt in stmts {
        declare_stmt(scope, stmt)?;
    }
    Ok(())
}

/// Declares what the body of an arrow declares.
pub(crate) fn declare_body(scope: &mut Distinct, body: &Body) -> Result<(), NoMemory>
    ensures { OnOk result (scope.new ≡ with_names scope.old (body_parts body.now).declares) }
{
    match body {
        Body::Value(_) => Ok(()),
        Body::Block(stmts) => declare_stmts(scope, stmts.as_slice()),
    }
}

/// Declares what the head of a `for` declares.
pub(crate) fn declare_optional(scope: &mut Distinct, stmt: &Option<Stmt>) -> Result<(), NoMemory>
    ensures { OnOk result (scope.new ≡ with_names scope.old (optional (option_map stmt_parts stmt.now)).declares) }
{
    match stmt {
        Some(stmt) => declare_stmt(scope, stmt),
        None => Ok(()),
    }
}

/// The names of an arrow with some parameters, each once: those, and what its body declares. `NoMemory` comes only where memory runs out.
#[tactic(auto, using(crate::proofs::Names::with_names_append))]
pub fn arrow_scope(alloc: Global, params: &[Named], body: &Body) -> Result<Distinct, NoMemory>
    ensures { IfOk result (λ names. names ≡ scope_of params.now (body_parts body.now)) }
{
    let mut names = Distinct::new(alloc);
    declare_all(&mut names, params)?;
    declare_body(&mut names, body)?;
    Ok(names)
}

/// The names of a function with some parameters, or of a block, which has none, each once: those, and what its statements declare. `NoMemory`
/// comes only where memory runs out.
#[tactic(auto, using(crate::proofs::Names::with_names_append))]
pub fn block_scope(alloc: Global, params: &[Named], stmts: &[Stmt]) -> Result<Distinct, NoMemory>
    ensures { IfOk result (λ names. names ≡ scope_of params.now (together (map stmt_parts stmts.now))) }
{
    let mut names = Distinct::new(alloc);
    declare_all(&mut names, params)?;
    declare_stmts(&mut names, stmts)?;
    Ok(names)
}

/// The names that the head of a `for` declares, each once. `NoMemory` comes only where memory runs out.
pub fn head_scope(alloc: Global, first: &Option<Stmt>) -> Result<Distinct, NoMemory>
    ensures { IfOk result (λ names. names ≡ head_of first.now) }
{
    let mut names = Distinct::new(alloc);
    declare_optional(&mut names, first)?;
    Ok(names)
}
