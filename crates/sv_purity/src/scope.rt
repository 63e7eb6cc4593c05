// The scopes round a part of an expression, and what they hide.
ghost use Rattle.std.specs.Prelude.{◌≡◌, Bool, map};
ghost use Rattle.std.specs.List.{list_any};
ghost use Rattle.sv_ast.specs.declared.names.Ref.{Ref};
ghost use Rattle.sv_names.specs.Distinct.{same_ref, has};
ghost use Rattle.sv_names.specs.Uses.{named, imported};
ghost use Rattle.sv_purity.specs.Pure as spec;
ghost use Rattle.sv_purity.specs.Pure.{together, decl_part, stmt_part, hiding};
ghost use Rattle.sv_purity.specs.Scopes.{declared_by, visible};

use sv_ast::{Decl, Import, ImportName, Named, Ref, Stmt, StmtKind};
use sv_names::Distinct;

/// The names by which something is known that changes nothing, and reads nothing but what it is given.
#[derive(Drop)]
pub struct Known {
    /// The names of pure functions, which may be called, and handed to a call on a list as its function.
    pub functions: Distinct,
    /// The names that may be called, and not handed on: `String` and `Boolean`.
    pub conversions: Distinct,
}

/// What is known by name at some place: what is known of the whole, but for what the scopes round the place hide. A clause sees it by
/// `visible`.
#[derive(Clone, Copy)]
pub enum Scope<'a> {
    /// Round the whole.
    Top(&'a Known),
    /// The same as lists, in which each name is looked for from the front.
    Listed {
        functions: &'a [Ref],
        conversions: &'a [Ref],
    },
    /// In a scope that declares some names.
    Hiding {
        outer: &'a Scope<'a>,
        names: &'a Distinct,
    },
    /// In a scope that declares parameters, and what its statements declare.
    Inner {
        outer: &'a Scope<'a>,
        params: &'a [Named],
        stmts: &'a [Stmt],
    },
}

impl<'a> Scope<'a> {
    /// A scope in another, which declares parameters and what its statements declare. One that hides nothing is passed over: it is
    /// the scope round it.
    #[tactic(auto, using(crate::proofs::Hiding::hiding_none))]
    pub(crate) fn inside(outer: &'a Scope<'a>, params: &'a [Named], stmts: &'a [Stmt]) -> Scope<'a>
        ensures { visible result ≡ hiding (declared_by params.now stmts.now) (visible outer.now) }
    {
        if is_any_declared(params, stmts, outer) {
            Scope::Inner {
                outer,
                params,
                stmts,
            }
        } else {
            *outer
        }
    }
}

// What is looked for among the names that a scope declares.
trait Sought {
    // Whether it is this name.
    ghost is_sought: { Self → Ref → Bool };

    fn seeks(&self, name: Ref) -> bool
        ensures { result ≡ is_sought self.now name };
}

// One name.
impl Sought for Ref {
    ghost is_sought = { same_ref };

    fn seeks(&self, name: Ref) -> bool {
        *self == name
    }
}

// Any name by which something is known here.
impl Sought for Scope<'_> {
    ghost is_sought = { λ scope name. spec.is_callable (visible scope) name };

    fn seeks(&self, name: Ref) -> bool {
        is_callable(self, name)
    }
}

/// Whether a name may be called here.
#[tactic(auto, using(crate::proofs::Hiding::is_callable_hiding))]
pub(crate) fn is_callable(scope: &Scope<'_>, name: Ref) -> bool
    ensures { result ≡ spec.is_callable (visible scope.now) name }
{
    match scope {
        Scope::Top(known) => known.functions.has(name) || known.conversions.has(name),
        Scope::Listed {
            functions,
            conversions,
        } => functions.contains(&name) || conversions.contains(&name),
        Scope::Hiding { outer, names } => !names.has(name) && is_callable(outer, name),
        Scope::Inner {
            outer,
            params,
            stmts,
        } => !is_any_declared(params, stmts, &name) && is_callable(outer, name),
    }
}

/// Whether a name is that of a pure function here.
#[tactic(auto, using(crate::proofs::Hiding::has_without))]
pub(crate) fn is_pure_name(scope: &Scope<'_>, name: Ref) -> bool
    ensures { result ≡ has name (visible scope.now).functions }
{
    match scope {
        Scope::Top(known) => known.functions.has(name),
        Scope::Listed { functions, .. } => functions.contains(&name),
        Scope::Hiding { outer, names } => !names.has(name) && is_pure_name(outer, name),
        Scope::Inner {
            outer,
            params,
            stmts,
        } => !is_any_declared(params, stmts, &name) && is_pure_name(outer, name),
    }
}

// Whether a scope declares a name that is sought.
fn is_any_declared<S: Sought>(params: &[Named], stmts: &[Stmt], sought: &S) -> bool
    ensures { result ≡ list_any (S.is_sought sought.now) (declared_by params.now stmts.now) }
{
    is_named(params, sought) || is_declared(stmts, sought)
}

// Whether a declared name is sought.
fn is<S: Sought>(own: &Named, sought: &S) -> bool
    ensures { result ≡ S.is_sought sought.now (named own.now) }
{
    sought.seeks(Ref::Plain(own.name))
}

// Whether a parameter has a name that is sought.
fn is_named<S: Sought>(params: &[Named], sought: &S) -> bool
    ensures { result ≡ list_any (S.is_sought sought.now) (map named params.now) }
{
    for own in params {
        if is(own, sought) {
            return true;
        }
    }
    false
}

// Whether some statement declares such a name in the scope round it.
fn is_declared<S: Sought>(stmts: &[Stmt], sought: &S) -> bool
    ensures { result ≡ list_any (S.is_sought sought.now) (together (map stmt_part stmts.now)).declares }
{
    for stmt in stmts {
        if declares(stmt, sought) {
            return true;
        }
    }
    false
}

fn declares<S: Sought>(stmt: &Stmt, sought: &S) -> bool
    ensures { result ≡ list_any (S.is_sought sought.now) (stmt_part stmt.now).declares }
{
    match stmt.kind.get() {
        StmtKind::Let(decls) | StmtKind::Export(decls) => is_among(decls.as_slice(), sought),
        StmtKind::Const { decls, .. } => is_among(decls.as_slice(), sought),
        StmtKind::Import(import) => imports(import, sought),
        StmtKind::Func { name: own, .. } => is(own, sought),
        StmtKind::Empty
        | StmtKind::Block(_)
        | StmtKind::If { .. }
        | StmtKind::While { .. }
        | StmtKind::For { .. }
        | StmtKind::Each { .. }
        | StmtKind::Break
        | StmtKind::Continue
        | StmtKind::Return(_)
        | StmtKind::Eval(_)
        | StmtKind::React(_) => false,
    }
}

fn is_among<S: Sought>(decls: &[Decl], sought: &S) -> bool
    ensures { result ≡ list_any (S.is_sought sought.now) (together (map decl_part decls.now)).declares }
{
    for decl in decls {
        if is(&decl.name, sought) {
            return true;
        }
    }
    false
}

fn imports<S: Sought>(import: &Import, sought: &S) -> bool
    ensures { result ≡ list_any (S.is_sought sought.now) (imported import.now) }
{
    let is_whole = match &import.whole {
        Some(own) => is(own, sought),
        None => false,
    };
    is_whole || is_given(import.names.as_slice(), sought)
}

fn is_given<S: Sought>(specs: &[ImportName], sought: &S) -> bool
    ensures { result ≡ list_any (S.is_sought sought.now) (map (λ spec. named spec.local) specs.now) }
{
    for spec in specs {
        if is(&spec.local, sought) {
            return true;
        }
    }
    false
}
