// The notes that a walk takes.
ghost use Rattle.std.specs.Prelude.{◌≡◌, [], ◌∷◌, ◌++◌, map, OnOk};
ghost use Rattle.sv_effects.specs.Signs as spec;
ghost use Rattle.sv_effects.specs.declared.notes.Sign.TheVariants.{Reads};

use std::alloc::Global;
use sv_ast::{Expr, ExprKind, Ref};
use sv_base::{Name, Names, NoMemory};
use sv_list::Items;
use sv_names::Distinct;
use sv_purity::{is_list_call, is_math, is_math_call, is_value_call};

/// What a body does that may keep its function from being pure.
#[derive(Clone, Copy, Debug, PartialEq, Eq)]
pub(crate) enum Sign {
    /// It reads a name that isn't its own.
    Reads(Ref),
    /// It assigns a name that isn't its own.
    Sets(Ref),
    /// It calls a name that isn't its own.
    Calls(Ref),
    /// It hands a name that isn't its own to a call on a list, as the function that is called.
    Hands(Ref),
    /// It has a call that isn't pure, whatever functions are.
    Breaks,
}

/// The names that the scopes around declare, and the signs so far.
#[derive(Drop)]
pub(crate) struct Walk {
    pub(crate) locals: Distinct,
    pub(crate) signs: Items<Sign>,
}

pub(crate) fn start(alloc: Global) -> Walk
    ensures locals { result.locals ≡ [] }
    ensures signs { result.signs ≡ [] }
{
    Walk {
        locals: Distinct::new(alloc),
        signs: Items::new(alloc),
    }
}

// Notes a sign.
pub(crate) fn note(walk: &mut Walk, sign: Sign) -> Result<(), NoMemory>
    ensures locals { OnOk result (walk.new.locals ≡ walk.old.locals) }
    ensures signs { OnOk result (walk.new.signs ≡ walk.old.signs ++ sign ∷ []) }
{
    walk.signs.push(sign)
}

// Notes a sign of a name that isn't the body's own.
fn note_unless_local(walk: &mut Walk, sign: Sign, name: Ref) -> Result<(), NoMemory>
    ensures locals { OnOk result (walk.new.locals ≡ walk.old.locals) }
    ensures signs { OnOk result (walk.new.signs ≡ walk.old.signs ++ spec.unless_local sign name walk.old.locals) }
{
    if walk.locals.has(name) {
        return Ok(());
    }
    note(walk, sign)
}

// Notes the sign that a call gives for a name.
fn note_by_name(walk: &mut Walk, sign: Sign, name: Ref) -> Result<(), NoMemory>
    ensures locals { OnOk result (walk.new.locals ≡ walk.old.locals) }
    ensures signs { OnOk result (walk.new.signs ≡ walk.old.signs ++ spec.by_name sign name walk.old.locals) }
{
    if walk.locals.has(name) {
        return note(walk, Sign::Breaks);
    }
    note(walk, sign)
}

/// Notes a name that is read.
pub(crate) fn note_read(walk: &mut Walk, name: Ref) -> Result<(), NoMemory>
    ensures locals { OnOk result (walk.new.locals ≡ walk.old.locals) }
    ensures signs { OnOk result (walk.new.signs ≡ walk.old.signs ++ spec.unless_local (Reads name) name walk.old.locals) }
{
    note_unless_local(walk, Sign::Reads(name), name)
}

/// Notes a name that is assigned.
pub(crate) fn note_set(walk: &mut Walk, name: Ref, handed: bool) -> Result<(), NoMemory>
    ensures locals { OnOk result (walk.new.locals ≡ walk.old.locals) }
    ensures signs { OnOk result (walk.new.signs ≡ walk.old.signs ++ spec.set_signs handed name walk.old.locals) }
{
    if handed {
        return note(walk, Sign::Breaks);
    }
    note_unless_local(walk, Sign::Sets(name), name)
}

/// Notes a call itself.
pub(crate) fn note_own(
    walk: &mut Walk,
    of: &Expr,
    args: &[Expr],
    names: &Names,
) -> Result<(), NoMemory>
    ensures locals { OnOk result (walk.new.locals ≡ walk.old.locals) }
    ensures signs { OnOk result (walk.new.signs ≡ walk.old.signs ++ spec.own_signs (spec.asked of.now).form (map (λ arg. arg.form) (map spec.asked args.now)) names.now walk.old.locals) }
{
    match of.kind.get() {
        ExprKind::Read(name) => note_by_name(walk, Sign::Calls(*name), *name),
        ExprKind::Member { of, word } => note_member(walk, of, *word, args, names),
        _ => note(walk, Sign::Breaks),
    }
}

// Notes the call of a member.
fn note_member(
    walk: &mut Walk,
    of: &Expr,
    word: Name,
    args: &[Expr],
    names: &Names,
) -> Result<(), NoMemory>
    ensures locals { OnOk result (walk.new.locals ≡ walk.old.locals) }
    ensures signs { OnOk result (walk.new.signs ≡ walk.old.signs ++ spec.calls_member (spec.asked of.now).form word (map (λ arg. arg.form) (map spec.asked args.now)) names.now walk.old.locals) }
{
    if is_value_call(names, word) {
        return Ok(());
    }
    if is_list_call(names, word) {
        return note_handed(walk, args);
    }
    if names_math(of, names) && is_math_call(names, word) {
        return Ok(());
    }
    note(walk, Sign::Breaks)
}

// Whether an expression is the name `Math`.
fn names_math(of: &Expr, names: &Names) -> bool
    ensures { result ≡ spec.is_math (spec.asked of.now).form names.now }
{
    match of.kind.get() {
        ExprKind::Read(Ref::Plain(name)) => is_math(names, *name),
        _ => false,
    }
}

// Notes what is handed to a call on a list.
fn note_handed(walk: &mut Walk, args: &[Expr]) -> Result<(), NoMemory>
    ensures locals { OnOk result (walk.new.locals ≡ walk.old.locals) }
    ensures signs { OnOk result (walk.new.signs ≡ walk.old.signs ++ spec.hands_first (map (λ arg. arg.form) (map spec.asked args.now)) walk.old.locals) }
{
    match args.first() {
        Some(first) => note_function(walk, first),
        None => note(walk, Sign::Breaks),
    }
}

fn note_function(walk: &mut Walk, of: &Expr) -> Result<(), NoMemory>
    ensures locals { OnOk result (walk.new.locals ≡ walk.old.locals) }
    ensures signs { OnOk result (walk.new.signs ≡ walk.old.signs ++ spec.hands (spec.asked of.now).form walk.old.locals) }
{
    match of.kind.get() {
        ExprKind::Read(name) => note_by_name(walk, Sign::Hands(*name), *name),
        ExprKind::Arrow { .. } => Ok(()),
        _ => note(walk, Sign::Breaks),
    }
}

/// Whether what is called takes a function that it calls.
pub(crate) fn takes_function(of: &Expr, names: &Names) -> bool
    ensures { result ≡ spec.takes_function (spec.asked of.now).form names.now }
{
    match of.kind.get() {
        ExprKind::Member { word, .. } => is_list_call(names, *word),
        _ => false,
    }
}
