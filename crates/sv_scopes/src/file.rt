// The scopes of whole files.
ghost use Rattle.std.specs.Prelude.{◌≡◌, [], ◌∷◌, ◌++◌, length, take_while, map, filter, not, IfOk, OnOk};
ghost use Rattle.sv_ast.specs.declared.markup_tree.Markup.{out-Markup};
ghost use Rattle.sv_scopes.specs.Files as spec;
ghost use Rattle.sv_scopes.specs.Parts.{Finds, declaring, names_of};

use crate::found::Found;
use crate::markup::find_nodes;
use crate::scope::{Binding, Declared, FileScopes};
use crate::script::find_stmt;
use std::alloc::Global;
use sv_ast::{AssignOp, Component, ExprKind, Markup, Ref, Script, Stmt, StmtKind};
use sv_base::{NoMemory, Span};

/// The scopes of a component, each with what it declares and with the uses in it that no scope inside it declares, in the
/// order of the file. `NoMemory` comes only where memory runs out.
///
/// A scope is the top level, a function or an arrow with its parameters and body, another block of statements, a `for` with
/// its head, a row of an each block with its key, and slot content with its `let:` names (ECMA-262, 9.1 and 14.2; Svelte 4
/// docs, '{#each}' and '<slot key={value}>'). `docs/language.md` says more of each.
pub fn scopes_of_component(alloc: Global, c: &Component) -> Result<FileScopes, NoMemory>
    ensures { IfOk result (λ scopes. scopes ≡ spec.component_scopes c.now) }
{
    let mut found = Found::new(alloc);
    let nodes = c.nodes.as_slice();
    let (front, back) = nodes.split_at(count_before(c.script.stmts.as_slice(), nodes));
    find_nodes(&mut found, front)?;
    find_script(&mut found, &c.script)?;
    find_nodes(&mut found, back)?;
    found.into_file()
}

/// The scopes of a module, of which the script is given.
pub fn scopes_of_module(alloc: Global, s: &Script) -> Result<FileScopes, NoMemory>
    ensures { IfOk result (λ scopes. scopes ≡ spec.module_scopes s.now) }
{
    let mut found = Found::new(alloc);
    find_script(&mut found, s)?;
    found.into_file()
}

// How many nodes begin before a script.
fn count_before(stmts: &[Stmt], nodes: &[Markup]) -> usize
    ensures { result ≡ spec.before stmts.now nodes.now }
{
    let place = place_of(stmts);
    nodes
        .iter()
        .take_while(|node| span_of(node).from < place)
        .count()
}

fn place_of(stmts: &[Stmt]) -> u32
    ensures { result ≡ spec.place_of stmts.now }
{
    match stmts.first() {
        Some(stmt) => stmt.span.from,
        None => 0,
    }
}

fn span_of(node: &Markup) -> Span
    ensures { result ≡ spec.layer_span (out-Markup node.now) }
{
    match node {
        Markup::Text { span, .. }
        | Markup::Show { span, .. }
        | Markup::Element { span, .. }
        | Markup::Comp { span, .. }
        | Markup::Slot { span, .. }
        | Markup::If { span, .. }
        | Markup::Each { span, .. }
        | Markup::Key { span, .. } => *span,
    }
}

fn find_script(found: &mut Found, s: &Script) -> Result<(), NoMemory>
    ensures { OnOk result (Finds found.old found.new (spec.script s.now)) }
{
    for stmt in s.stmts.as_slice() {
        declare_reactive(found, stmt)?;
        find_stmt(found, stmt)?;
    }
    Ok(())
}

// Notes the name of a statement `$: x = e`.
fn declare_reactive(found: &mut Found, stmt: &Stmt) -> Result<(), NoMemory>
    ensures { OnOk result (Finds found.old found.new (declaring (spec.reactive stmt.now))) }
{
    let StmtKind::React(of) = stmt.kind.get() else {
        return Ok(());
    };
    let StmtKind::Eval(value) = of.kind.get() else {
        return Ok(());
    };
    match value.kind.get() {
        ExprKind::Assign {
            target: Ref::Plain(name),
            op: AssignOp::Set,
            ..
        } => found.declare(Declared {
            name: *name,
            span: value.span,
            by: Binding::Reactive,
        }),
        _ => Ok(()),
    }
}
