// Tests on trees: where a quotient may stand, and what `==` compares with.
ghost use Rattle.std.specs.Prelude.{◌≡◌};
ghost use Rattle.std.specs.List.{list_any};
ghost use Rattle.sv_expr.specs.Quotients as spec;

use crate::form::Form;
use sv_ast::{Expr, ExprKind, Link, Op, Ref};
use sv_base::built_in::{FLOOR, MATH, TRUNC};
use sv_lex::Tokens;

/// What stands to the left of an operator.
#[derive(Clone, Copy, Debug, PartialEq, Eq)]
pub enum Left {
    /// The literal `null`.
    Null,
    /// A quotient.
    Quotient,
    /// Anything else.
    Other,
}

fn divides(op: Op) -> bool
    ensures { result ≡ spec.divides op }
{
    matches!(op, Op::Div)
}

fn some_divides(links: &[Link]) -> bool
    ensures { result ≡ list_any (λ link. spec.divides link.op) links.now }
{
    links.iter().any(|link| divides(link.op))
}

/// Whether the outermost operator is `/`.
pub fn is_quotient(of: &Expr) -> bool
    ensures { result ≡ spec.is_quotient of.now }
{
    match of.kind.get() {
        ExprKind::Chain { rest, .. } => some_divides(rest.as_slice()),
        _ => false,
    }
}

fn some_quotient(args: &[Expr]) -> bool
    ensures { result ≡ list_any spec.is_quotient args.now }
{
    args.iter().any(|arg| is_quotient(arg))
}

fn is_null(of: &Expr) -> bool
    ensures { result ≡ spec.is_null of.now }
{
    matches!(of.kind.get(), ExprKind::Null)
}

/// What stands to the left of the first operator, which is `first`.
pub fn left_of(first: &Expr) -> Left
    ensures { result ≡ spec.left_of first.now }
{
    if is_null(first) {
        Left::Null
    } else if is_quotient(first) {
        Left::Quotient
    } else {
        Left::Other
    }
}

/// What stands to the left of the operator behind `op`.
pub fn left_by(op: Op) -> Left
    ensures { result ≡ spec.left_by op }
{
    if divides(op) {
        Left::Quotient
    } else {
        Left::Other
    }
}

fn wants_null(op: Op) -> bool
    ensures { result ≡ spec.wants_null op }
{
    matches!(op, Op::Equal | Op::NotEqual)
}

/// Whether an operator may stand between its sides.
pub fn fits(left: Left, op: Op, right: &Expr) -> bool
    ensures { result ≡ spec.fits left op right.now }
{
    let is_whole = !matches!(left, Left::Quotient) && !is_quotient(right);
    let has_null = !wants_null(op) || matches!(left, Left::Null) || is_null(right);
    is_whole && has_null
}

fn is_math(of: &Expr, tokens: &Tokens<'_>) -> bool
    ensures { result ≡ spec.is_math of.now tokens.now }
{
    match of.kind.get() {
        ExprKind::Read(Ref::Plain(name)) => tokens.is_named(*name, MATH),
        _ => false,
    }
}

/// Whether a function is `Math.floor` or `Math.trunc`.
pub fn rounds(of: &Expr, tokens: &Tokens<'_>) -> bool
    ensures { result ≡ spec.rounds of.now tokens.now }
{
    match of.kind.get() {
        ExprKind::Member { of, word } => {
            is_math(of, tokens) && (tokens.is_named(*word, FLOOR) || tokens.is_named(*word, TRUNC))
        }
        _ => false,
    }
}

/// How the arguments of a call stand in their brackets.
pub fn argument(is_rounding: bool) -> Form
    ensures { result ≡ spec.argument is_rounding }
{
    if is_rounding {
        Form::Bracketed
    } else {
        Form::Whole
    }
}

/// Whether a quotient among arguments is the only one.
pub fn is_single(args: &[Expr]) -> bool
    ensures { result ≡ spec.is_single args.now }
{
    !some_quotient(args) || args.len() == 1
}
