// What is found in expressions and statements.
ghost use Rattle.std.specs.Prelude.{◌≡◌, [], ◌∷◌, map, option_map, OnOk};
ghost use Rattle.sv_scopes.specs.Parts.{Finds, in_turn, optional, declaring, followed, scope, arrow};
ghost use Rattle.sv_scopes.specs.Script as spec;

use crate::declare::{declare, declare_all, declare_import};
use crate::found::Found;
use crate::scope::{Binding, Form, Role, Use};
use sv_ast::{Arm, Body, Decl, Entry, Expr, ExprKind, Field, Link, Named, Ref, Stmt, StmtKind};
use sv_base::{Name, NoMemory, Span};

/// A use, round which no arrow stands so far.
pub(crate) fn use_of(name: Ref, form: Form, span: Span, role: Role) -> Use
    ensures { result ≡ spec.use_of name form span role }
{
    Use {
        name,
        span,
        form,
        in_arrow: false,
        role,
    }
}

fn bump_form(prefix: bool) -> Form
    ensures { result ≡ spec.bump_form prefix }
{
    if prefix {
        Form::BumpedBefore
    } else {
        Form::BumpedBehind
    }
}

fn member_role(word: Name, role: Role) -> Role
    ensures { result ≡ spec.member_role word role }
{
    match role {
        Role::Called => Role::CalledMember(word),
        Role::Alone | Role::CalledMember(_) | Role::Tag => Role::Alone,
    }
}

fn for_binding(fixed: bool) -> Binding
    ensures { result ≡ spec.for_binding fixed }
{
    if fixed { Binding::Const } else { Binding::Let }
}

/// Finds what is in an expression that stands in some role.
#[cycle(walk)]
pub(crate) fn find(found: &mut Found, of: &Expr, role: Role) -> Result<(), NoMemory>
    ensures { OnOk result (Finds found.old found.new (spec.expr_parts of.now role)) }
{
    find_kind(found, of.kind.get(), of.span, role)
}

#[cycle(walk)]
fn find_kind(found: &mut Found, kind: &ExprKind, span: Span, role: Role) -> Result<(), NoMemory>
    ensures { OnOk result (Finds found.old found.new (spec.kind_parts kind.now span role)) }
{
    match kind {
        ExprKind::Undefined
        | ExprKind::Null
        | ExprKind::Bool(_)
        | ExprKind::Num(_)
        | ExprKind::Text(_) => Ok(()),
        ExprKind::Read(name) => found.note(use_of(*name, Form::Read, span, role)),
        ExprKind::List(items) => find_items(found, items.as_slice()),
        ExprKind::Obj(fields) => find_fields(found, fields.as_slice()),
        ExprKind::Template(parts) => find_all(found, parts.as_slice()),
        ExprKind::Arrow { params, body } => find_arrow(found, params.as_slice(), body),
        ExprKind::Assign { target, value, .. } => {
            found.note(use_of(*target, Form::Assigned, span, Role::Alone))?;
            find(found, value, Role::Alone)
        }
        ExprKind::Bump { target, prefix, .. } => {
            found.note(use_of(*target, bump_form(*prefix), span, Role::Alone))
        }
        ExprKind::Chain { first, rest } => {
            find(found, first, Role::Alone)?;
            find_links(found, rest.as_slice())
        }
        ExprKind::Not(of) | ExprKind::Minus(of) => find(found, of, Role::Alone),
        ExprKind::Choose { test, yes, no } => {
            find(found, test, Role::Alone)?;
            find(found, yes, Role::Alone)?;
            find(found, no, Role::Alone)
        }
        ExprKind::Member { of, word } => find(found, of, member_role(*word, role)),
        ExprKind::Index { of, at } => {
            find(found, of, Role::Alone)?;
            find(found, at, Role::Alone)
        }
        ExprKind::Call { of, args } => {
            find(found, of, Role::Called)?;
            find_all(found, args.as_slice())
        }
    }
}

#[cycle(walk)]
fn find_all(found: &mut Found, list: &[Expr]) -> Result<(), NoMemory>
    ensures { OnOk result (Finds found.old found.new (in_turn (map spec.alone (map spec.expr_parts list.now)))) }
{
    for of in list {
        find(found, of, Role::Alone)?;
    }
    Ok(())
}

#[cycle(walk)]
fn find_items(found: &mut Found, items: &[Entry]) -> Result<(), NoMemory>
    ensures { OnOk result (Finds found.old found.new (in_turn (map spec.entry_parts items.now))) }
{
    for item in items {
        find_item(found, item)?;
    }
    Ok(())
}

#[cycle(walk)]
fn find_item(found: &mut Found, item: &Entry) -> Result<(), NoMemory>
    ensures { OnOk result (Finds found.old found.new (spec.entry_parts item.now)) }
{
    match item {
        Entry::One(value) | Entry::Spread(value) => find(found, value, Role::Alone),
    }
}

#[cycle(walk)]
fn find_fields(found: &mut Found, fields: &[Field]) -> Result<(), NoMemory>
    ensures { OnOk result (Finds found.old found.new (in_turn (map spec.field_parts fields.now))) }
{
    for field in fields {
        find_field(found, field)?;
    }
    Ok(())
}

#[cycle(walk)]
fn find_field(found: &mut Found, field: &Field) -> Result<(), NoMemory>
    ensures { OnOk result (Finds found.old found.new (spec.field_parts field.now)) }
{
    match field {
        Field::Pair { value, .. } | Field::Spread(value) => find(found, value, Role::Alone),
    }
}

#[cycle(walk)]
fn find_links(found: &mut Found, links: &[Link]) -> Result<(), NoMemory>
    ensures { OnOk result (Finds found.old found.new (in_turn (map spec.link_parts links.now))) }
{
    for link in links {
        find(found, &link.right, Role::Alone)?;
    }
    Ok(())
}

/// Finds what is in an expression that may be absent.
#[cycle(walk)]
pub(crate) fn find_given(found: &mut Found, of: &Option<Expr>) -> Result<(), NoMemory>
    ensures { OnOk result (Finds found.old found.new (spec.given (option_map spec.expr_parts of.now))) }
{
    match of {
        Some(of) => find(found, of, Role::Alone),
        None => Ok(()),
    }
}

#[cycle(walk)]
fn find_arrow(found: &mut Found, params: &[Named], body: &Body) -> Result<(), NoMemory>
    ensures { OnOk result (Finds found.old found.new (arrow (followed (spec.locals params.now) (spec.body_parts body.now)))) }
{
    let around = found.enter();
    declare_all(found, params)?;
    find_body(found, body)?;
    found.leave(around, true)
}

#[cycle(walk)]
fn find_body(found: &mut Found, body: &Body) -> Result<(), NoMemory>
    ensures { OnOk result (Finds found.old found.new (spec.body_parts body.now)) }
{
    match body {
        Body::Value(value) => find(found, value, Role::Alone),
        Body::Block(stmts) => find_stmts(found, stmts.as_slice()),
    }
}

/// Finds what is in a statement.
#[cycle(walk)]
pub(crate) fn find_stmt(found: &mut Found, stmt: &Stmt) -> Result<(), NoMemory>
    ensures { OnOk result (Finds found.old found.new (spec.stmt_parts stmt.now)) }
{
    find_stmt_kind(found, stmt.kind.get())
}

#[cycle(walk)]
fn find_stmt_kind(found: &mut Found, kind: &StmtKind) -> Result<(), NoMemory>
    ensures { OnOk result (Finds found.old found.new (spec.stmt_kind_parts kind.now)) }
{
    match kind {
        StmtKind::Empty | StmtKind::Break | StmtKind::Continue => Ok(()),
        StmtKind::Block(stmts) => find_block(found, &[], stmts.as_slice()),
        StmtKind::Let(decls) => find_decls(found, decls.as_slice(), Binding::Let),
        StmtKind::Const { decls, .. } => find_decls(found, decls.as_slice(), Binding::Const),
        StmtKind::If { arms, last } => {
            find_arms(found, arms.as_slice())?;
            find_optional(found, last)
        }
        StmtKind::While { test, body } => {
            find(found, test, Role::Alone)?;
            find_stmt(found, body)
        }
        StmtKind::For {
            first,
            test,
            next,
            body,
        } => {
            let around = found.enter();
            find_optional(found, first)?;
            find_given(found, test)?;
            find_given(found, next)?;
            find_stmt(found, body)?;
            found.leave(around, false)
        }
        StmtKind::Each {
            name,
            fixed,
            list,
            body,
        } => {
            let around = found.enter();
            declare(found, name, for_binding(*fixed))?;
            find(found, list, Role::Alone)?;
            find_stmt(found, body)?;
            found.leave(around, false)
        }
        StmtKind::Return(value) => find_given(found, value),
        StmtKind::Eval(value) => find(found, value, Role::Alone),
        StmtKind::Import(import) => declare_import(found, import),
        StmtKind::Export(decls) => find_decls(found, decls.as_slice(), Binding::Export),
        StmtKind::React(of) => find_stmt(found, of),
        StmtKind::Func {
            name,
            params,
            body,
            ..
        } => {
            declare(found, name, Binding::Function)?;
            find_block(found, params.as_slice(), body.as_slice())
        }
    }
}

// What is in a function, or in a block, which has no parameters.
#[cycle(walk)]
fn find_block(found: &mut Found, params: &[Named], stmts: &[Stmt]) -> Result<(), NoMemory>
    ensures { OnOk result (Finds found.old found.new (spec.block params.now (map spec.stmt_parts stmts.now))) }
{
    let around = found.enter();
    declare_all(found, params)?;
    find_stmts(found, stmts)?;
    found.leave(around, false)
}

#[cycle(walk)]
fn find_stmts(found: &mut Found, stmts: &[Stmt]) -> Result<(), NoMemory>
    ensures { OnOk result (Finds found.old found.new (in_turn (map spec.stmt_parts stmts.now))) }
{
    for stmt in stmts {
        find_stmt(found, stmt)?;
    }
    Ok(())
}

#[cycle(walk)]
fn find_decls(found: &mut Found, decls: &[Decl], by: Binding) -> Result<(), NoMemory>
    ensures { OnOk result (Finds found.old found.new (spec.decls by (map spec.decl_parts decls.now))) }
{
    for decl in decls {
        declare(found, &decl.name, by)?;
        find_given(found, &decl.first)?;
    }
    Ok(())
}

#[cycle(walk)]
fn find_arms(found: &mut Found, arms: &[Arm]) -> Result<(), NoMemory>
    ensures { OnOk result (Finds found.old found.new (in_turn (map spec.arm_parts arms.now))) }
{
    for arm in arms {
        find(found, &arm.test, Role::Alone)?;
        find_stmt(found, &arm.body)?;
    }
    Ok(())
}

#[cycle(walk)]
fn find_optional(found: &mut Found, stmt: &Option<Stmt>) -> Result<(), NoMemory>
    ensures { OnOk result (Finds found.old found.new (optional (option_map spec.stmt_parts stmt.now))) }
{
    match stmt {
        Some(stmt) => find_stmt(found, stmt),
        None => Ok(()),
    }
}
