// The free uses of names in expressions and statements.
ghost use Rattle.std.specs.Prelude.{◌≡◌, [], ◌∷◌, ◌++◌, map, option_map, OnOk};
ghost use Rattle.sv_names.specs.Uses as spec;

use crate::once::Distinct;
use crate::scopes::{declare, declare_all, declare_body, declare_optional, declare_stmts};
use sv_ast::{
    Arm, AssignOp, Body, Decl, Entry, Expr, ExprKind, Field, Link, Named, Ref, Stmt, StmtKind,
};
use sv_base::NoMemory;
use sv_list::Items;

/// A place where a name stands free, with whether it is read there and whether it is assigned.
#[derive(Clone, Copy, Debug, PartialEq, Eq)]
pub struct Use {
    pub name: Ref,
    pub is_read: bool,
    pub is_set: bool,
}

/// The names of the scopes around, and what was found so far.
#[derive(Drop)]
pub(crate) struct Walk {
    pub(crate) scope: Distinct,
    pub(crate) uses: Items<Use>,
}

fn note(walk: &mut Walk, found: Use) -> Result<(), NoMemory>
    ensures scope { OnOk result (walk.new.scope ≡ walk.old.scope) }
    ensures uses { OnOk result (walk.new.uses ≡ walk.old.uses ++ spec.used found walk.old.scope) }
{
    if !walk.scope.has(found.name) {
        walk.uses.push(found)?;
    }
    Ok(())
}

fn read(name: Ref) -> Use
    ensures { result ≡ spec.read name }
{
    Use {
        name,
        is_read: true,
        is_set: false,
    }
}

fn assigned(name: Ref, op: AssignOp) -> Use
    ensures { result ≡ spec.assigned name op }
{
    Use {
        name,
        is_read: !matches!(op, AssignOp::Set),
        is_set: true,
    }
}

fn bumped(name: Ref) -> Use
    ensures { result ≡ spec.bumped name }
{
    Use {
        name,
        is_read: true,
        is_set: true,
    }
}

/// Finds the free uses in an expression.
#[cycle(walk)]
pub(crate) fn find(walk: &mut Walk, of: &Expr) -> Result<(), NoMemory>
    ensures scope { OnOk result (walk.new.scope ≡ walk.old.scope) }
    ensures uses { OnOk result (walk.new.uses ≡ walk.old.uses ++ spec.expr_uses of.now walk.old.scope) }
{
    find_kind(walk, of.kind.get())
}

#[cycle(walk)]
fn find_kind(walk: &mut Walk, kind: &ExprKind) -> Result<(), NoMemory>
    ensures scope { OnOk result (walk.new.scope ≡ walk.old.scope) }
    ensures uses { OnOk result (walk.new.uses ≡ walk.old.uses ++ spec.kind_uses kind.now walk.old.scope) }
{
    match kind {
        ExprKind::Undefined
        | ExprKind::Null
        | ExprKind::Bool(_)
        | ExprKind::Num(_)
        | ExprKind::Text(_) => Ok(()),
        ExprKind::Read(name) => note(walk, read(*name)),
        ExprKind::List(items) => find_items(walk, items.as_slice()),
        ExprKind::Obj(fields) => find_fields(walk, fields.as_slice()),
        ExprKind::Template(parts) => find_all(walk, parts.as_slice()),
        ExprKind::Arrow { params, body } => find_arrow(walk, params.as_slice(), body),
        ExprKind::Assign { target, op, value } => {
            note(walk, assigned(*target, *op))?;
            find(walk, value)
        }
        ExprKind::Bump { target, .. } => note(walk, bumped(*target)),
        ExprKind::Chain { first, rest } => {
            find(walk, first)?;
            find_links(walk, rest.as_slice())
        }
        ExprKind::Not(of) | ExprKind::Minus(of) => find(walk, of),
        ExprKind::Choose { test, yes, no } => {
            find(walk, test)?;
            find(walk, yes)?;
            find(walk, no)
        }
        ExprKind::Member { of, .. } => find(walk, of),
        ExprKind::Index { of, at } => {
            find(walk, of)?;
            find(walk, at)
        }
        ExprKind::Call { of, args } => {
            find(walk, of)?;
            find_all(walk, args.as_slice())
        }
    }
}

#[cycle(walk)]
fn find_all(walk: &mut Walk, list: &[Expr]) -> Result<(), NoMemory>
    ensures scope { OnOk result (walk.new.scope ≡ walk.old.scope) }
    ensures uses { OnOk result (walk.new.uses ≡ walk.old.uses ++ spec.in_turn (map spec.expr_uses list.now) walk.old.scope) }
{
    for of in list {
        find(walk, of)?;
    }
    Ok(())
}

#[cycle(walk)]
fn find_items(walk: &mut Walk, items: &[Entry]) -> Result<(), NoMemory>
    ensures scope { OnOk result (walk.new.scope ≡ walk.old.scope) }
    ensures uses { OnOk result (walk.new.uses ≡ walk.old.uses ++ spec.in_turn (map spec.entry_uses items.now) walk.old.scope) }
{
    for item in items {
        find_item(walk, item)?;
    }
    Ok(())
}

#[cycle(walk)]
fn find_item(walk: &mut Walk, item: &Entry) -> Result<(), NoMemory>
    ensures scope { OnOk result (walk.new.scope ≡ walk.old.scope) }
    ensures uses { OnOk result (walk.new.uses ≡ walk.old.uses ++ spec.entry_uses item.now walk.old.scope) }
{
    match item {
        Entry::One(value) | Entry::Spread(value) => find(walk, value),
    }
}

#[cycle(walk)]
fn find_fields(walk: &mut Walk, fields: &[Field]) -> Result<(), NoMemory>
    ensures scope { OnOk result (walk.new.scope ≡ walk.old.scope) }
    ensures uses { OnOk result (walk.new.uses ≡ walk.old.uses ++ spec.in_turn (map spec.field_uses fields.now) walk.old.scope) }
{
    for field in fields {
        find_field(walk, field)?;
    }
    Ok(())
}

#[cycle(walk)]
fn find_field(walk: &mut Walk, field: &Field) -> Result<(), NoMemory>
    ensures scope { OnOk result (walk.new.scope ≡ walk.old.scope) }
    ensures uses { OnOk result (walk.new.uses ≡ walk.old.uses ++ spec.field_uses field.now walk.old.scope) }
{
    match field {
        Field::Pair { value, .. } | Field::Spread(value) => find(walk, value),
    }
}

#[cycle(walk)]
fn find_links(walk: &mut Walk, links: &[Link]) -> Result<(), NoMemory>
    ensures scope { OnOk result (walk.new.scope ≡ walk.old.scope) }
    ensures uses { OnOk result (walk.new.uses ≡ walk.old.uses ++ spec.in_turn (map spec.link_uses links.now) walk.old.scope) }
{
    for link in links {
        find(walk, &link.right)?;
    }
    Ok(())
}

#[cycle(walk)]
fn find_given(walk: &mut Walk, of: &Option<Expr>) -> Result<(), NoMemory>
    ensures scope { OnOk result (walk.new.scope ≡ walk.old.scope) }
    ensures uses { OnOk result (walk.new.uses ≡ walk.old.uses ++ spec.given (option_map spec.expr_uses of.now) walk.old.scope) }
{
    match of {
        Some(of) => find(walk, of),
        None => Ok(()),
    }
}

/// Finds the free uses in an arrow.
#[cycle(walk)]
pub(crate) fn find_arrow(walk: &mut Walk, params: &[Named], body: &Body) -> Result<(), NoMemory>
    ensures scope { OnOk result (walk.new.scope ≡ walk.old.scope) }
    ensures uses { OnOk result (walk.new.uses ≡ walk.old.uses ++ spec.inside (map spec.named params.now) (spec.body_parts body.now) walk.old.scope) }
{
    let open = walk.scope.len();
    declare_all(&mut walk.scope, params)?;
    declare_body(&mut walk.scope, body)?;
    find_body(walk, body)?;
    walk.scope.cut(open);
    Ok(())
}

#[cycle(walk)]
fn find_body(walk: &mut Walk, body: &Body) -> Result<(), NoMemory>
    ensures scope { OnOk result (walk.new.scope ≡ walk.old.scope) }
    ensures uses { OnOk result (walk.new.uses ≡ walk.old.uses ++ (spec.body_parts body.now).uses walk.old.scope) }
{
    match body {
        Body::Value(value) => find(walk, value),
        Body::Block(stmts) => find_stmts(walk, stmts.as_slice()),
    }
}

/// Finds the free uses in a statement.
#[cycle(walk)]
pub(crate) fn find_stmt(walk: &mut Walk, stmt: &Stmt) -> Result<(), NoMemory>
    ensures scope { OnOk result (walk.new.scope ≡ walk.old.scope) }
    ensures uses { OnOk result (walk.new.uses ≡ walk.old.uses ++ (spec.stmt_parts stmt.now).uses walk.old.scope) }
{
    find_stmt_kind(walk, stmt.kind.get())
}

#[cycle(walk)]
fn find_stmt_kind(walk: &mut Walk, kind: &StmtKind) -> Result<(), NoMemory>
    ensures scope { OnOk result (walk.new.scope ≡ walk.old.scope) }
    ensures uses { OnOk result (walk.new.uses ≡ walk.old.uses ++ (spec.stmt_kind_parts kind.now).uses walk.old.scope) }
{
    match kind {
        StmtKind::Empty | StmtKind::Break | StmtKind::Continue | StmtKind::Import(_) => Ok(()),
        StmtKind::Block(stmts) => find_block(walk, &[], stmts.as_slice()),
        StmtKind::Let(decls) => find_decls(walk, decls.as_slice()),
        StmtKind::Const { decls, .. } => find_decls(walk, decls.as_slice()),
        StmtKind::If { arms, last } => {
            find_arms(walk, arms.as_slice())?;
            find_optional(walk, last)
        }
        StmtKind::While { test, body } => {
            find(walk, test)?;
            find_stmt(walk, body)
        }
        StmtKind::For {
            first,
            test,
            next,
            body,
        } => {
            let open = walk.scope.len();
            declare_optional(&mut walk.scope, first)?;
            find_optional(walk, first)?;
            find_given(walk, test)?;
            find_given(walk, next)?;
            find_stmt(walk, body)?;
            walk.scope.cut(open);
            Ok(())
        }
        StmtKind::Each {
            name,
            list,
            body,
            ..
        } => {
            let open = walk.scope.len();
            declare(&mut walk.scope, name)?;
            find(walk, list)?;
            find_stmt(walk, body)?;
            walk.scope.cut(open);
            Ok(())
        }
        StmtKind::Return(value) => find_given(walk, value),
        StmtKind::Eval(value) => find(walk, value),
        StmtKind::Export(decls) => find_decls(walk, decls.as_slice()),
        StmtKind::React(of) => find_stmt(walk, of),
        StmtKind::Func { params, body, .. } => {
            find_block(walk, params.as_slice(), body.as_slice())
        }
    }
}

/// Finds the free uses in a function, or in a block, which has no parameters.
#[cycle(walk)]
pub(crate) fn find_block(walk: &mut Walk, params: &[Named], stmts: &[Stmt]) -> Result<(), NoMemory>
    ensures scope { OnOk result (walk.new.scope ≡ walk.old.scope) }
    ensures uses { OnOk result (walk.new.uses ≡ walk.old.uses ++ spec.inside (map spec.named params.now) (spec.together (map spec.stmt_parts stmts.now)) walk.old.scope) }
{
    let open = walk.scope.len();
    declare_all(&mut walk.scope, params)?;
    declare_stmts(&mut walk.scope, stmts)?;
    find_stmts(walk, stmts)?;
    walk.scope.cut(open);
    Ok(())
}

#[cycle(walk)]
fn find_stmts(walk: &mut Walk, stmts: &[Stmt]) -> Result<(), NoMemory>
    ensures scope { OnOk result (walk.new.scope ≡ walk.old.scope) }
    ensures uses { OnOk result (walk.new.uses ≡ walk.old.uses ++ (spec.together (map spec.stmt_parts stmts.now)).uses walk.old.scope) }
{
    for stmt in stmts {
        find_stmt(walk, stmt)?;
    }
    Ok(())
}

#[cycle(walk)]
fn find_decls(walk: &mut Walk, decls: &[Decl]) -> Result<(), NoMemory>
    ensures scope { OnOk result (walk.new.scope ≡ walk.old.scope) }
    ensures uses { OnOk result (walk.new.uses ≡ walk.old.uses ++ (spec.together (map spec.decl_parts decls.now)).uses walk.old.scope) }
{
    for decl in decls {
        find_given(walk, &decl.first)?;
    }
    Ok(())
}

#[cycle(walk)]
fn find_arms(walk: &mut Walk, arms: &[Arm]) -> Result<(), NoMemory>
    ensures scope { OnOk result (walk.new.scope ≡ walk.old.scope) }
    ensures uses { OnOk result (walk.new.uses ≡ walk.old.uses ++ spec.in_turn (map spec.arm_uses arms.now) walk.old.scope) }
{
    for arm in arms {
        find_arm(walk, arm)?;
    }
    Ok(())
}

#[cycle(walk)]
fn find_arm(walk: &mut Walk, arm: &Arm) -> Result<(), NoMemory>
    ensures scope { OnOk result (walk.new.scope ≡ walk.old.scope) }
    ensures uses { OnOk result (walk.new.uses ≡ walk.old.uses ++ spec.arm_uses arm.now walk.old.scope) }
{
    find(walk, &arm.test)?;
    find_stmt(walk, &arm.body)
}

#[cycle(walk)]
fn find_optional(walk: &mut Walk, stmt: &Option<Stmt>) -> Result<(), NoMemory>
    ensures scope { OnOk result (walk.new.scope ≡ walk.old.scope) }
    ensures uses { OnOk result (walk.new.uses ≡ walk.old.uses ++ (spec.optional (option_map spec.stmt_parts stmt.now)).uses walk.old.scope) }
{
    match stmt {
        Some(stmt) => find_stmt(walk, stmt),
        None => Ok(()),
    }
}
