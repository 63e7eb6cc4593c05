// What scopes declare.
ghost use Rattle.std.specs.Prelude.{◌≡◌, [], ◌∷◌, map, option_map, OnOk};
ghost use Rattle.sv_names.specs.Distinct.{with_names};
ghost use Rattle.sv_names.specs.Uses.{named, imported};
ghost use Rattle.sv_effects.specs.Signs.{optional, together, body_part, decl_part, stmt_part, stmt_kind_part};

use sv_ast::{Body, Decl, Import, ImportName, Named, Ref, Stmt, StmtKind};
use sv_base::NoMemory;
use sv_names::Distinct;

/// Declares a name.
pub(crate) fn declare(locals: &mut Distinct, name: &Named) -> Result<(), NoMemory>
    ensures { OnOk result (locals.new ≡ with_names locals.old (named name.now ∷ [])) }
{
    locals.add(Ref::Plain(name.name))
}

/// Declares parameters.
pub(crate) fn declare_all(locals: &mut Distinct, names: &[Named]) -> Result<(), NoMemory>
    ensures { OnOk result (locals.new ≡ with_names locals.old (map named names.now)) }
{
    for name in names {
        declare(locals, name)?;
    }
    Ok(())
}

fn declare_decls(locals: &mut Distinct, decls: &[Decl]) -> Result<(), NoMemory>
    ensures { OnOk result (locals.new ≡ with_names locals.old (together (map decl_part decls.now)).declares) }
{
    for decl in decls {
        declare(locals, &decl.name)?;
    }
    Ok(())
}

fn declare_specs(locals: &mut Distinct, specs: &[ImportName]) -> Result<(), NoMemory>
    ensures { OnOk result (locals.new ≡ with_names locals.old (map (λ spec. named spec.local) specs.now)) }
{
    for spec in specs {
        declare(locals, &spec.local)?;
    }
    Ok(())
}

fn declare_import(locals: &mut Distinct, import: &Import) -> Result<(), NoMemory>
    ensures { OnOk result (locals.new ≡ with_names locals.old (imported import.now)) }
{
    if let Some(whole) = &import.whole {
        declare(locals, whole)?;
    }
    declare_specs(locals, import.names.as_slice())
}

// Declares what a statement declares in the scope round it.
fn declare_stmt(locals: &mut Distinct, stmt: &Stmt) -> Result<(), NoMemory>
    ensures { OnOk result (locals.new ≡ with_names locals.old (stmt_part stmt.now).declares) }
{
    declare_kind(locals, stmt.kind.get())
}

fn declare_kind(locals: &mut Distinct, kind: &StmtKind) -> Result<(), NoMemory>
    ensures { OnOk result (locals.new ≡ with_names locals.old (stmt_kind_part kind.now).declares) }
{
    match kind {
        StmtKind::Let(decls) => declare_decls(locals, decls.as_slice()),
        StmtKind::Const { decls, .. } => declare_decls(locals, decls.as_slice()),
        StmtKind::Export(decls) => declare_decls(locals, decls.as_slice()),
        StmtKind::Import(import) => declare_import(locals, import),
        StmtKind::Func { name, .. } => declare(locals, name),
        StmtKind::Empty
        | StmtKind::Block(_)
        | StmtKind::If { .. }
        | StmtKind::While { .. }
        | StmtKind::For { .. }
        | StmtKind::Each { .. }
        | StmtKind::Break
        | StmtKind::Continue
        | StmtKind::Return(_)
        | StmtKind::Eval(_)
        | StmtKind::React(_) => Ok(()),
    }
}

/// Declares what the statements of a block declare in it.
pub(crate) fn declare_stmts(locals: &mut Distinct, stmts: &[Stmt]) -> Result<(), NoMemory>
    ensures { OnOk result (locals.new ≡ with_names locals.old (together (map stmt_part stmts.now)).declares) }
{
    for stmt in stmts {
        declare_stmt(locals, stmt)?;
    }
    Ok(())
}

/// Declares what the body of an arrow declares.
pub(crate) fn declare_body(locals: &mut Distinct, body: &Body) -> Result<(), NoMemory>
    ensures { OnOk result (locals.new ≡ with_names locals.old (body_part body.now).declares) }
{
    match body {
        Body::Value(_) => Ok(()),
        Body::Block(stmts) => declare_stmts(locals, stmts.as_slice()),
    }
}

/// Declares what the head of a `for` declares.
pub(crate) fn declare_first(locals: &mut Distinct, stmt: &Option<Stmt>) -> Result<(), NoMemory>
    ensures { OnOk result (locals.new ≡ with_names locals.old (optional (option_map stmt_part stmt.now)).declares) }
{
    match stmt {
        Some(stmt) => declare_stmt(locals, stmt),
        None => Ok(()),
    }
}
