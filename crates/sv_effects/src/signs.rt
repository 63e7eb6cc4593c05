// What the body of a function does that may keep it from being pure.
ghost use Rattle.std.specs.Prelude.{◌≡◌, [], ◌∷◌, ◌++◌, map, option_map, IfOk, OnOk};
ghost use Rattle.sv_names.specs.Uses.{named};
ghost use Rattle.sv_effects.specs.Signs as spec;

use crate::locals::{declare, declare_all, declare_body, declare_first, declare_stmts};
use crate::notes::{Sign, Walk, note_own, note_read, note_set, start, takes_function};
use std::alloc::Global;
use sv_ast::{Arm, Body, Decl, Entry, Expr, ExprKind, Field, Link, Named, Stmt, StmtKind};
use sv_base::{Names, NoMemory};
use sv_list::Items;

/// The signs of a function that a statement declares.
pub(crate) fn signs_of_function(
    alloc: Global,
    names: &Names,
    of: &Stmt,
) -> Result<Items<Sign>, NoMemory>
    ensures { IfOk result (λ signs. signs ≡ spec.function_signs names.now of.now) }
{
    let mut walk = start(alloc);
    find_stmt(&mut walk, of, names, false)?;
    Ok(walk.signs)
}

/// The signs of an arrow.
pub(crate) fn signs_of_arrow(
    alloc: Global,
    names: &Names,
    of: &Expr,
) -> Result<Items<Sign>, NoMemory>
    ensures { IfOk result (λ signs. signs ≡ spec.arrow_signs names.now of.now) }
{
    let mut walk = start(alloc);
    find(&mut walk, of, names, false)?;
    Ok(walk.signs)
}

#[cycle(walk)]
fn find(walk: &mut Walk, of: &Expr, names: &Names, handed: bool) -> Result<(), NoMemory>
    ensures locals { OnOk result (walk.new.locals ≡ walk.old.locals) }
    ensures signs { OnOk result (walk.new.signs ≡ walk.old.signs ++ (spec.asked of.now).signs (spec.place names.now handed walk.old.locals)) }
{
    find_kind(walk, of.kind.get(), names, handed)
}

#[cycle(walk)]
fn find_kind(walk: &mut Walk, kind: &ExprKind, names: &Names, handed: bool) -> Result<(), NoMemory>
    ensures locals { OnOk result (walk.new.locals ≡ walk.old.locals) }
    ensures signs { OnOk result (walk.new.signs ≡ walk.old.signs ++ (spec.kind_asked kind.now).signs (spec.place names.now handed walk.old.locals)) }
{
    match kind {
        ExprKind::Undefined
        | ExprKind::Null
        | ExprKind::Bool(_)
        | ExprKind::Num(_)
        | ExprKind::Text(_) => Ok(()),
        ExprKind::Read(name) => note_read(walk, *name),
        ExprKind::List(items) => find_items(walk, items.as_slice(), names, handed),
        ExprKind::Obj(fields) => find_fields(walk, fields.as_slice(), names, handed),
        ExprKind::Template(parts) => find_all(walk, parts.as_slice(), names, handed),
        ExprKind::Arrow { params, body } => {
            find_arrow(walk, params.as_slice(), body, names, false)
        }
        ExprKind::Assign { target, value, .. } => {
            note_set(walk, *target, handed)?;
            find(walk, value, names, handed)
        }
        ExprKind::Bump { target, .. } => note_set(walk, *target, handed),
        ExprKind::Chain { first, rest } => {
            find(walk, first, names, handed)?;
            find_links(walk, rest.as_slice(), names, handed)
        }
        ExprKind::Not(of) | ExprKind::Minus(of) => find(walk, of, names, handed),
        ExprKind::Choose { test, yes, no } => {
            find(walk, test, names, handed)?;
            find(walk, yes, names, handed)?;
            find(walk, no, names, handed)
        }
        ExprKind::Member { of, .. } => find(walk, of, names, handed),
        ExprKind::Index { of, at } => {
            find(walk, of, names, handed)?;
            find(walk, at, names, handed)
        }
        ExprKind::Call { of, args } => {
            note_own(walk, of, args.as_slice(), names)?;
            find(walk, of, names, handed)?;
            find_arguments(walk, args.as_slice(), of, names, handed)
        }
    }
}

#[cycle(walk)]
fn find_all(walk: &mut Walk, list: &[Expr], names: &Names, handed: bool) -> Result<(), NoMemory>
    ensures locals { OnOk result (walk.new.locals ≡ walk.old.locals) }
    ensures signs { OnOk result (walk.new.signs ≡ walk.old.signs ++ spec.in_turn (map (λ part. part.signs) (map spec.asked list.now)) (spec.place names.now handed walk.old.locals)) }
{
    for of in list {
        find(walk, of, names, handed)?;
    }
    Ok(())
}

#[cycle(walk)]
fn find_items(walk: &mut Walk, items: &[Entry], names: &Names, handed: bool) -> Result<(), NoMemory>
    ensures locals { OnOk result (walk.new.locals ≡ walk.old.locals) }
    ensures signs { OnOk result (walk.new.signs ≡ walk.old.signs ++ spec.in_turn (map spec.entry_signs items.now) (spec.place names.now handed walk.old.locals)) }
{
    for item in items {
        find_item(walk, item, names, handed)?;
    }
    Ok(())
}

#[cycle(walk)]
fn find_item(walk: &mut Walk, item: &Entry, names: &Names, handed: bool) -> Result<(), NoMemory>
    ensures locals { OnOk result (walk.new.locals ≡ walk.old.locals) }
    ensures signs { OnOk result (walk.new.signs ≡ walk.old.signs ++ spec.entry_signs item.now (spec.place names.now handed walk.old.locals)) }
{
    match item {
        Entry::One(value) | Entry::Spread(value) => find(walk, value, names, handed),
    }
}

#[cycle(walk)]
fn find_fields(
    walk: &mut Walk,
    fields: &[Field],
    names: &Names,
    handed: bool,
) -> Result<(), NoMemory>
    ensures locals { OnOk result (walk.new.locals ≡ walk.old.locals) }
    ensures signs { OnOk result (walk.new.signs ≡ walk.old.signs ++ spec.in_turn (map spec.field_signs fields.now) (spec.place names.now handed walk.old.locals)) }
{
    for field in fields {
        find_field(walk, field, names, handed)?;
    }
    Ok(())
}

#[cycle(walk)]
fn find_field(walk: &mut Walk, field: &Field, names: &Names, handed: bool) -> Result<(), NoMemory>
    ensures locals { OnOk result (walk.new.locals ≡ walk.old.locals) }
    ensures signs { OnOk result (walk.new.signs ≡ walk.old.signs ++ spec.field_signs field.now (spec.place names.now handed walk.old.locals)) }
{
    match field {
        Field::Pair { value, .. } | Field::Spread(value) => find(walk, value, names, handed),
    }
}

#[cycle(walk)]
fn find_links(walk: &mut Walk, links: &[Link], names: &Names, handed: bool) -> Result<(), NoMemory>
    ensures locals { OnOk result (walk.new.locals ≡ walk.old.locals) }
    ensures signs { OnOk result (walk.new.signs ≡ walk.old.signs ++ spec.in_turn (map spec.link_signs links.now) (spec.place names.now handed walk.old.locals)) }
{
    for link in links {
        find(walk, &link.right, names, handed)?;
    }
    Ok(())
}

#[cycle(walk)]
fn find_given(
    walk: &mut Walk,
    of: &Option<Expr>,
    names: &Names,
    handed: bool,
) -> Result<(), NoMemory>
    ensures locals { OnOk result (walk.new.locals ≡ walk.old.locals) }
    ensures signs { OnOk result (walk.new.signs ≡ walk.old.signs ++ spec.given (option_map spec.asked of.now) (spec.place names.now handed walk.old.locals)) }
{
    match of {
        Some(of) => find(walk, of, names, handed),
        None => Ok(()),
    }
}

#[cycle(walk)]
fn find_arguments(
    walk: &mut Walk,
    args: &[Expr],
    of: &Expr,
    names: &Names,
    handed: bool,
) -> Result<(), NoMemory>
    ensures locals { OnOk result (walk.new.locals ≡ walk.old.locals) }
    ensures signs { OnOk result (walk.new.signs ≡ walk.old.signs ++ spec.arguments (spec.asked of.now).form (map spec.asked args.now) (spec.place names.now handed walk.old.locals)) }
{
    if !takes_function(of, names) {
        return find_all(walk, args, names, handed);
    }
    match args.split_first() {
        Some((first, more)) => {
            find_taken(walk, first, names, handed)?;
            find_all(walk, more, names, handed)
        }
        None => Ok(()),
    }
}

// Finds the signs in the first argument of a call on a list.
#[cycle(walk)]
fn find_taken(walk: &mut Walk, of: &Expr, names: &Names, handed: bool) -> Result<(), NoMemory>
    ensures locals { OnOk result (walk.new.locals ≡ walk.old.locals) }
    ensures signs { OnOk result (walk.new.signs ≡ walk.old.signs ++ spec.taken (spec.asked of.now).form (spec.asked of.now).signs (spec.place names.now handed walk.old.locals)) }
{
    match of.kind.get() {
        ExprKind::Arrow { params, body } => find_arrow(walk, params.as_slice(), body, names, true),
        _ => find(walk, of, names, handed),
    }
}

#[cycle(walk)]
fn find_arrow(
    walk: &mut Walk,
    params: &[Named],
    body: &Body,
    names: &Names,
    handed: bool,
) -> Result<(), NoMemory>
    ensures locals { OnOk result (walk.new.locals ≡ walk.old.locals) }
    ensures signs { OnOk result (walk.new.signs ≡ walk.old.signs ++ spec.inside (map named params.now) (spec.body_part body.now) (spec.place names.now handed walk.old.locals)) }
{
    let open = walk.locals.len();
    declare_all(&mut walk.locals, params)?;
    declare_body(&mut walk.locals, body)?;
    find_body(walk, body, names, handed)?;
    walk.locals.cut(open);
    Ok(())
}

#[cycle(walk)]
fn find_body(walk: &mut Walk, body: &Body, names: &Names, handed: bool) -> Result<(), NoMemory>
    ensures locals { OnOk result (walk.new.locals ≡ walk.old.locals) }
    ensures signs { OnOk result (walk.new.signs ≡ walk.old.signs ++ (spec.body_part body.now).signs (spec.place names.now handed walk.old.locals)) }
{
    match body {
        Body::Value(value) => find(walk, value, names, handed),
        Body::Block(stmts) => find_stmts(walk, stmts.as_slice(), names, handed),
    }
}

// Finds the signs in the body of a function, or in a block, which has no parameters.
#[cycle(walk)]
fn find_block(
    walk: &mut Walk,
    params: &[Named],
    stmts: &[Stmt],
    names: &Names,
    handed: bool,
) -> Result<(), NoMemory>
    ensures locals { OnOk result (walk.new.locals ≡ walk.old.locals) }
    ensures signs { OnOk result (walk.new.signs ≡ walk.old.signs ++ spec.inside (map named params.now) (spec.together (map spec.stmt_part stmts.now)) (spec.place names.now handed walk.old.locals)) }
{
    let open = walk.locals.len();
    declare_all(&mut walk.locals, params)?;
    declare_stmts(&mut walk.locals, stmts)?;
    find_stmts(walk, stmts, names, handed)?;
    walk.locals.cut(open);
    Ok(())
}

#[cycle(walk)]
fn find_stmts(walk: &mut Walk, stmts: &[Stmt], names: &Names, handed: bool) -> Result<(), NoMemory>
    ensures locals { OnOk result (walk.new.locals ≡ walk.old.locals) }
    ensures signs { OnOk result (walk.new.signs ≡ walk.old.signs ++ (spec.together (map spec.stmt_part stmts.now)).signs (spec.place names.now handed walk.old.locals)) }
{
    for of in stmts {
        find_stmt(walk, of, names, handed)?;
    }
    Ok(())
}

#[cycle(walk)]
fn find_stmt(walk: &mut Walk, of: &Stmt, names: &Names, handed: bool) -> Result<(), NoMemory>
    ensures locals { OnOk result (walk.new.locals ≡ walk.old.locals) }
    ensures signs { OnOk result (walk.new.signs ≡ walk.old.signs ++ (spec.stmt_part of.now).signs (spec.place names.now handed walk.old.locals)) }
{
    find_stmt_kind(walk, of.kind.get(), names, handed)
}

#[cycle(walk)]
fn find_stmt_kind(
    walk: &mut Walk,
    kind: &StmtKind,
    names: &Names,
    handed: bool,
) -> Result<(), NoMemory>
    ensures locals { OnOk result (walk.new.locals ≡ walk.old.locals) }
    ensures signs { OnOk result (walk.new.signs ≡ walk.old.signs ++ (spec.stmt_kind_part kind.now).signs (spec.place names.now handed walk.old.locals)) }
{
    match kind {
        StmtKind::Empty | StmtKind::Break | StmtKind::Continue | StmtKind::Import(_) => Ok(()),
        StmtKind::Block(stmts) => find_block(walk, &[], stmts.as_slice(), names, handed),
        StmtKind::Let(decls) => find_decls(walk, decls.as_slice(), names, handed),
        StmtKind::Const { decls, .. } => find_decls(walk, decls.as_slice(), names, handed),
        StmtKind::If { arms, last } => {
            find_arms(walk, arms.as_slice(), names, handed)?;
            find_optional(walk, last, names, handed)
        }
        StmtKind::While { test, body } => {
            find(walk, test, names, handed)?;
            find_stmt(walk, body, names, handed)
        }
        StmtKind::For {
            first,
            test,
            next,
            body,
        } => {
            let open = walk.locals.len();
            declare_first(&mut walk.locals, first)?;
            find_optional(walk, first, names, handed)?;
            find_given(walk, test, names, handed)?;
            find_given(walk, next, names, handed)?;
            find_stmt(walk, body, names, handed)?;
            walk.locals.cut(open);
            Ok(())
        }
        StmtKind::Each {
            name,
            list,
            body,
            ..
        } => {
            let open = walk.locals.len();
            declare(&mut walk.locals, name)?;
            find(walk, list, names, handed)?;
            find_stmt(walk, body, names, handed)?;
            walk.locals.cut(open);
            Ok(())
        }
        StmtKind::Return(value) => find_given(walk, value, names, handed),
        StmtKind::Eval(value) => find(walk, value, names, handed),
        StmtKind::Export(decls) => find_decls(walk, decls.as_slice(), names, handed),
        StmtKind::React(of) => find_stmt(walk, of, names, handed),
        StmtKind::Func { params, body, .. } => {
            find_block(walk, params.as_slice(), body.as_slice(), names, false)
        }
    }
}

#[cycle(walk)]
fn find_optional(
    walk: &mut Walk,
    of: &Option<Stmt>,
    names: &Names,
    handed: bool,
) -> Result<(), NoMemory>
    ensures locals { OnOk result (walk.new.locals ≡ walk.old.locals) }
    ensures signs { OnOk result (walk.new.signs ≡ walk.old.signs ++ (spec.optional (option_map spec.stmt_part of.now)).signs (spec.place names.now handed walk.old.locals)) }
{
    match of {
        Some(of) => find_stmt(walk, of, names, handed),
        None => Ok(()),
    }
}

#[cycle(walk)]
fn find_decls(walk: &mut Walk, list: &[Decl], names: &Names, handed: bool) -> Result<(), NoMemory>
    ensures locals { OnOk result (walk.new.locals ≡ walk.old.locals) }
    ensures signs { OnOk result (walk.new.signs ≡ walk.old.signs ++ (spec.together (map spec.decl_part list.now)).signs (spec.place names.now handed walk.old.locals)) }
{
    for decl in list {
        find_given(walk, &decl.first, names, handed)?;
    }
    Ok(())
}

#[cycle(walk)]
fn find_arms(walk: &mut Walk, list: &[Arm], names: &Names, handed: bool) -> Result<(), NoMemory>
    ensures locals { OnOk result (walk.new.locals ≡ walk.old.locals) }
    ensures signs { OnOk result (walk.new.signs ≡ walk.old.signs ++ spec.in_turn (map spec.arm_signs list.now) (spec.place names.now handed walk.old.locals)) }
{
    for of in list {
        find_arm(walk, of, names, handed)?;
    }
    Ok(())
}

#[cycle(walk)]
fn find_arm(walk: &mut Walk, of: &Arm, names: &Names, handed: bool) -> Result<(), NoMemory>
    ensures locals { OnOk result (walk.new.locals ≡ walk.old.locals) }
    ensures signs { OnOk result (walk.new.signs ≡ walk.old.signs ++ spec.arm_signs of.now (spec.place names.now handed walk.old.locals)) }
{
    find(walk, &of.test, names, handed)?;
    find_stmt(walk, &of.body, names, handed)
}
