// Where an expression isn't pure.
#![tactic(auto, using(crate::proofs::First::outcome_append))]

ghost use Rattle.std.specs.Prelude.{◌≡◌, map, option_map};
ghost use Rattle.std.specs.Option.{option_to_list};
ghost use Rattle.sv_names.specs.Uses.{named};
ghost use Rattle.sv_purity.specs.First.{first, outcome};
ghost use Rattle.sv_purity.specs.Pure as spec;
ghost use Rattle.sv_purity.specs.Scopes.{visible};

use crate::calls::{is_list_call, is_math, is_math_call, is_value_call};
use crate::scope::{Scope, is_callable, is_pure_name};
use std::slice;
use sv_ast::{
    Arm, Body, Decl, Entry, Expr, ExprKind, Field, Link, Named, Ref, RefList, Stmt, StmtKind,
};
use sv_base::{Names, Span};

/// Whether an expression may stand in markup: its evaluation assigns nothing, has no `++` and no `--`, and each call in it is of
/// one of three kinds.
///
/// - A call on a list or a text: of a member `includes`, `indexOf`, `slice`, `concat`, `join`, `trim`, `startsWith`, `endsWith` or
///   `split`; or of `map`, `filter`, `some`, `every`, `find`, `findIndex`, `forEach` or `reduce`, whose first argument is the name
///   of a pure function or an arrow with a pure body.
/// - A call of `Math.abs`, `Math.min`, `Math.max`, `Math.floor` or `Math.trunc`.
/// - A call of the name of a pure function, or of `String` or `Boolean`, which may not be handed on.
///
/// `names` is the table of names with which the expression was read. `functions` lists the names that stand for pure functions where it
/// stands, and `conversions` those of `String` and `Boolean` where nothing declares them anew.
///
/// The body of an arrow that is only made isn't evaluated, and isn't looked at. In the body of an arrow that a call takes, its
/// parameters hide what is known by their names, and so does what a block or the head of a `for` declares, in the whole of it.
///
/// The rule is this project's own: a part of a page is evaluated again where a variable that it names has changed, so a call that
/// reads another one would leave it as it was.
#[tactic(auto, using(crate::proofs::First::is_none_first))]
pub fn is_pure(names: &Names, e: &Expr, functions: &RefList, conversions: &RefList) -> bool
    ensures { result ≡ spec.is_pure names.now e.now (record { functions = functions.now; conversions = conversions.now }) }
{
    let known = Scope::Listed {
        functions: functions.as_slice(),
        conversions: conversions.as_slice(),
    };
    first_impurity(names, e, &known).is_none()
}

/// The first place where an expression isn't pure, in the order of the text, or `None` where it is: an assignment, a `++` or `--`, or
/// a call of none of the three kinds. Such a call stands before what is found in its parts. A call on a list whose arrow hasn't a
/// pure body is that place itself. `scope` tells what is known where the expression stands.
///
/// A scope in the expression that hides nothing that is known is passed over, after one look at its declarations. One that
/// declares such a name anew is looked through again for each name that is called or handed to a call in it, and for each that a
/// scope in it declares: a long block of that kind takes time in the square of its length.
#[tactic(auto, using(crate::proofs::First::result_err_outcome))]
pub fn first_impurity(names: &Names, e: &Expr, scope: &Scope<'_>) -> Option<Span>
    ensures { result ≡ first (spec.impurities names.now e.now (visible scope.now)) }
{
    check_expr(e, names, scope).err()
}

// The functions below look at a part of a tree, and refuse it by its first place that isn't pure.

#[cycle(walk)]
fn check_expr(e: &Expr, names: &Names, scope: &Scope<'_>) -> Result<(), Span>
    ensures { result ≡ outcome ((spec.asked e.now).places names.now (visible scope.now)) }
{
    check_kind(e.kind.get(), e.span, names, scope)
}

#[cycle(walk)]
fn check_kind(of: &ExprKind, at: Span, names: &Names, scope: &Scope<'_>) -> Result<(), Span>
    ensures { result ≡ outcome ((spec.kind_asked of.now at).places names.now (visible scope.now)) }
{
    match of {
        ExprKind::Undefined
        | ExprKind::Null
        | ExprKind::Bool(_)
        | ExprKind::Num(_)
        | ExprKind::Text(_)
        | ExprKind::Read(_)
        | ExprKind::Arrow { .. } => Ok(()),
        ExprKind::Assign { .. } | ExprKind::Bump { .. } => Err(at),
        ExprKind::List(items) => check_items(items.as_slice(), names, scope),
        ExprKind::Obj(fields) => check_fields(fields.as_slice(), names, scope),
        ExprKind::Template(parts) => check_exprs(parts.as_slice(), names, scope),
        ExprKind::Chain { first, rest } => {
            check_expr(first, names, scope)?;
            check_links(rest.as_slice(), names, scope)
        }
        ExprKind::Not(of) | ExprKind::Minus(of) => check_expr(of, names, scope),
        ExprKind::Choose { test, yes, no } => {
            check_expr(test, names, scope)?;
            check_expr(yes, names, scope)?;
            check_expr(no, names, scope)
        }
        ExprKind::Member { of, .. } => check_expr(of, names, scope),
        ExprKind::Index { of, at } => {
            check_expr(of, names, scope)?;
            check_expr(at, names, scope)
        }
        ExprKind::Call { of, args } => {
            check_call(args.as_slice(), of, at, names, scope)?;
            check_expr(of, names, scope)?;
            check_exprs(args.as_slice(), names, scope)
        }
    }
}

#[cycle(walk)]
fn check_exprs(list: &[Expr], names: &Names, scope: &Scope<'_>) -> Result<(), Span>
    ensures { result ≡ outcome (spec.each (map (λ part. part.places) (map spec.asked list.now)) names.now (visible scope.now)) }
{
    for e in list {
        check_expr(e, names, scope)?;
    }
    Ok(())
}

#[cycle(walk)]
fn check_items(items: &[Entry], names: &Names, scope: &Scope<'_>) -> Result<(), Span>
    ensures { result ≡ outcome (spec.each (map spec.entry_places items.now) names.now (visible scope.now)) }
{
    for item in items {
        check_item(item, names, scope)?;
    }
    Ok(())
}

#[cycle(walk)]
fn check_item(item: &Entry, names: &Names, scope: &Scope<'_>) -> Result<(), Span>
    ensures { result ≡ outcome (spec.entry_places item.now names.now (visible scope.now)) }
{
    match item {
        Entry::One(value) | Entry::Spread(value) => check_expr(value, names, scope),
    }
}

#[cycle(walk)]
fn check_fields(fields: &[Field], names: &Names, scope: &Scope<'_>) -> Result<(), Span>
    ensures { result ≡ outcome (spec.each (map spec.field_places fields.now) names.now (visible scope.now)) }
{
    for of in fields {
        check_field(of, names, scope)?;
    }
    Ok(())
}

#[cycle(walk)]
fn check_field(of: &Field, names: &Names, scope: &Scope<'_>) -> Result<(), Span>
    ensures { result ≡ outcome (spec.field_places of.now names.now (visible scope.now)) }
{
    match of {
        Field::Pair { value, .. } | Field::Spread(value) => check_expr(value, names, scope),
    }
}

#[cycle(walk)]
fn check_links(list: &[Link], names: &Names, scope: &Scope<'_>) -> Result<(), Span>
    ensures { result ≡ outcome (spec.each (map spec.link_places list.now) names.now (visible scope.now)) }
{
    for link in list {
        check_expr(&link.right, names, scope)?;
    }
    Ok(())
}

#[cycle(walk)]
fn check_given(value: &Option<Expr>, names: &Names, scope: &Scope<'_>) -> Result<(), Span>
    ensures { result ≡ outcome (spec.given (option_map spec.asked value.now) names.now (visible scope.now)) }
{
    match value {
        Some(value) => check_expr(value, names, scope),
        None => Ok(()),
    }
}

// Looks at a call, but not at its parts.
#[cycle(walk)]
fn check_call(
    args: &[Expr],
    of: &Expr,
    at: Span,
    names: &Names,
    scope: &Scope<'_>,
) -> Result<(), Span>
    ensures { result ≡ outcome (spec.unless (spec.may_call (spec.asked of.now).form (map (λ arg. arg.form) (map spec.asked args.now))) at names.now (visible scope.now)) }
{
    if may_call(args, of, names, scope) {
        Ok(())
    } else {
        Err(at)
    }
}

// Whether a call is of one of the three kinds.
#[cycle(walk)]
fn may_call(args: &[Expr], of: &Expr, names: &Names, scope: &Scope<'_>) -> bool
    ensures { result ≡ spec.may_call (spec.asked of.now).form (map (λ arg. arg.form) (map spec.asked args.now)) names.now (visible scope.now) }
{
    match of.kind.get() {
        ExprKind::Read(name) => is_callable(scope, *name),
        ExprKind::Member { of, word } => {
            is_value_call(names, *word)
                || is_list_call(names, *word) && begins_with_function(args, names, scope)
                || names_math(of, names) && is_math_call(names, *word)
        }
        _ => false,
    }
}

// Whether an expression is the name `Math`.
fn names_math(of: &Expr, names: &Names) -> bool
    ensures { result ≡ spec.is_math (spec.asked of.now).form names.now }
{
    match of.kind.get() {
        ExprKind::Read(Ref::Plain(name)) => is_math(names, *name),
        _ => false,
    }
}

// Whether the first argument is a pure function.
#[cycle(walk)]
fn begins_with_function(args: &[Expr], names: &Names, scope: &Scope<'_>) -> bool
    ensures { result ≡ spec.begins_with_function (map (λ arg. arg.form) (map spec.asked args.now)) names.now (visible scope.now) }
{
    match args.first() {
        Some(first) => is_pure_function(first, names, scope),
        None => false,
    }
}

// Whether an argument is the name of a pure function, or an arrow whose body is pure.
#[cycle(walk)]
#[tactic(auto, using(crate::proofs::First::is_ok_outcome))]
fn is_pure_function(e: &Expr, names: &Names, scope: &Scope<'_>) -> bool
    ensures { result ≡ spec.is_function (spec.asked e.now).form names.now (visible scope.now) }
{
    match e.kind.get() {
        ExprKind::Read(name) => is_pure_name(scope, *name),
        ExprKind::Arrow { params, body } => {
            check_arrow(params.as_slice(), body, names, scope).is_ok()
        }
        _ => false,
    }
}

// Looks at the body of an arrow.
#[cycle(walk)]
fn check_arrow(params: &[Named], body: &Body, names: &Names, scope: &Scope<'_>) -> Result<(), Span>
    ensures { result ≡ outcome (spec.inside (map named params.now) (spec.body_part body.now) names.now (visible scope.now)) }
{
    match body {
        Body::Value(value) => {
            let inner = Scope::inside(&*scope, params, &[]);
            check_expr(value, names, &inner)
        }
        Body::Block(stmts) => check_block(params, stmts.as_slice(), names, scope),
    }
}

// Looks at the statements of a scope.
#[cycle(walk)]
fn check_block(
    params: &[Named],
    stmts: &[Stmt],
    names: &Names,
    scope: &Scope<'_>,
) -> Result<(), Span>
    ensures { result ≡ outcome (spec.inside (map named params.now) (spec.together (map spec.stmt_part stmts.now)) names.now (visible scope.now)) }
{
    let inner = Scope::inside(&*scope, params, stmts);
    check_stmts(stmts, names, &inner)
}

#[cycle(walk)]
fn check_stmts(stmts: &[Stmt], names: &Names, scope: &Scope<'_>) -> Result<(), Span>
    ensures { result ≡ outcome ((spec.together (map spec.stmt_part stmts.now)).places names.now (visible scope.now)) }
{
    for of in stmts {
        check_stmt(of, names, scope)?;
    }
    Ok(())
}

#[cycle(walk)]
fn check_stmt(of: &Stmt, names: &Names, scope: &Scope<'_>) -> Result<(), Span>
    ensures { result ≡ outcome ((spec.stmt_part of.now).places names.now (visible scope.now)) }
{
    check_stmt_kind(of.kind.get(), names, scope)
}

#[cycle(walk)]
fn check_stmt_kind(of: &StmtKind, names: &Names, scope: &Scope<'_>) -> Result<(), Span>
    ensures { result ≡ outcome ((spec.stmt_kind_part of.now).places names.now (visible scope.now)) }
{
    match of {
        StmtKind::Empty
        | StmtKind::Break
        | StmtKind::Continue
        | StmtKind::Import(_)
        | StmtKind::Func { .. } => Ok(()),
        StmtKind::Block(stmts) => check_block(&[], stmts.as_slice(), names, scope),
        StmtKind::Let(decls) => check_decls(decls.as_slice(), names, scope),
        StmtKind::Const { decls, .. } => check_decls(decls.as_slice(), names, scope),
        StmtKind::Export(decls) => check_decls(decls.as_slice(), names, scope),
        StmtKind::If { arms, last } => {
            check_arms(arms.as_slice(), names, scope)?;
            check_optional(last, names, scope)
        }
        StmtKind::While { test, body } => {
            check_expr(test, names, scope)?;
            check_stmt(body, names, scope)
        }
        StmtKind::For {
            first,
            test,
            next,
            body,
        } => {
            let head = head(first);
            let inner = Scope::inside(&*scope, &[], head);
            check_stmts(head, names, &inner)?;
            check_given(test, names, &inner)?;
            check_given(next, names, &inner)?;
            check_stmt(body, names, &inner)
        }
        StmtKind::Each {
            name,
            list,
            body,
            ..
        } => {
            let inner = Scope::inside(&*scope, slice::from_ref(name), &[]);
            check_expr(list, names, &inner)?;
            check_stmt(body, names, &inner)
        }
        StmtKind::Return(value) => check_given(value, names, scope),
        StmtKind::Eval(value) => check_expr(value, names, scope),
        StmtKind::React(of) => check_stmt(of, names, scope),
    }
}

// The first part of the head of a `for`, as what stands in its scope.
fn head(first: &Option<Stmt>) -> &[Stmt]
    ensures { result.now ≡ option_to_list first.now }
{
    match first {
        Some(first) => slice::from_ref(first),
        None => &[],
    }
}

#[cycle(walk)]
fn check_optional(of: &Option<Stmt>, names: &Names, scope: &Scope<'_>) -> Result<(), Span>
    ensures { result ≡ outcome ((spec.together (option_to_list (option_map spec.stmt_part of.now))).places names.now (visible scope.now)) }
{
    match of {
        Some(of) => check_stmt(of, names, scope),
        None => Ok(()),
    }
}

#[cycle(walk)]
fn check_decls(list: &[Decl], names: &Names, scope: &Scope<'_>) -> Result<(), Span>
    ensures { result ≡ outcome ((spec.together (map spec.decl_part list.now)).places names.now (visible scope.now)) }
{
    for decl in list {
        check_given(&decl.first, names, scope)?;
    }
    Ok(())
}

#[cycle(walk)]
fn check_arms(list: &[Arm], names: &Names, scope: &Scope<'_>) -> Result<(), Span>
    ensures { result ≡ outcome (spec.each (map spec.arm_places list.now) names.now (visible scope.now)) }
{
    for of in list {
        check_arm(of, names, scope)?;
    }
    Ok(())
}

#[cycle(walk)]
fn check_arm(of: &Arm, names: &Names, scope: &Scope<'_>) -> Result<(), Span>
    ensures { result ≡ outcome (spec.arm_places of.now names.now (visible scope.now)) }
{
    check_expr(&of.test, names, scope)?;
    check_stmt(&of.body, names, scope)
}
