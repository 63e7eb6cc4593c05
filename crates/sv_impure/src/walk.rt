// The walk through the expressions of markup.
ghost use Rattle.std.specs.Prelude.{◌≡◌, ◌++◌, map, IfOk, OnOk};
ghost use Rattle.std.specs.List.{flat_map};
ghost use Rattle.sv_purity.specs.Pure.{each, hiding as spec_hiding};
ghost use Rattle.sv_purity.specs.Scopes.{visible};
ghost use Rattle.sv_impure.specs.Impure as spec;

use crate::attributes::find_attributes;
use std::alloc::Global;
use sv_ast::{Branch, Component, Expr, Markup, Named, TagAttr};
use sv_base::{Names, NoMemory, Span};
use sv_list::Items;
use sv_names::Distinct;
use sv_purity::{Known, Scope, first_impurity};
use sv_scopes::{is_slotted, let_names, row_names};

/// The places of the expressions in a component's markup that aren't pure, each where its first impurity is, in the order of the text:
/// those of attributes and directives, `on:` among them, of the heads of blocks, of keys and of text. `names` are those with which the
/// component was read, and `known` is what is known at its top level. The names of a row hide it in its key and its content, and `let:`
/// names in the content that they are of (Svelte 4 docs, '{#each}' and '`<slot key={value}>`'). `NoMemory` comes only where memory runs out.
pub fn impure_markup(
    alloc: Global,
    names: &Names,
    known: &Known,
    c: &Component,
) -> Result<Items<Span>, NoMemory>
    ensures { IfOk result (λ places. places ≡ spec.impure_markup names.now known.now c.now) }
{
    let mut places = Items::new(alloc);
    find_nodes(
        c.nodes.as_slice(),
        &mut places,
        alloc,
        names,
        &Scope::Top(known),
    )?;
    Ok(places)
}

/// Notes where an expression isn't pure.
pub(crate) fn find_shown(
    e: &Expr,
    places: &mut Items<Span>,
    names: &Names,
    scope: &Scope<'_>,
) -> Result<(), NoMemory>
    ensures { OnOk result (places.new ≡ places.old ++ spec.shown e.now names.now (visible scope.now)) }
{
    match first_impurity(names, e, scope) {
        Some(at) => places.push(at),
        None => Ok(()),
    }
}

fn find_given(
    e: &Option<Expr>,
    places: &mut Items<Span>,
    names: &Names,
    scope: &Scope<'_>,
) -> Result<(), NoMemory>
    ensures { OnOk result (places.new ≡ places.old ++ spec.given e.now names.now (visible scope.now)) }
{
    match e {
        Some(e) => find_shown(e, places, names, scope),
        None => Ok(()),
    }
}

// A scope in another, in which some names hide what is known.
fn hiding<'a>(outer: &'a Scope<'a>, names: &'a Distinct) -> Scope<'a>
    ensures { visible result ≡ spec_hiding names.now (visible outer.now) }
{
    Scope::Hiding { outer, names }
}

#[cycle(walk)]
fn find_nodes(
    nodes: &[Markup],
    places: &mut Items<Span>,
    alloc: Global,
    names: &Names,
    scope: &Scope<'_>,
) -> Result<(), NoMemory>
    ensures { OnOk result (places.new ≡ places.old ++ spec.nodes (map spec.node nodes.now) names.now (visible scope.now)) }
{
    for node in nodes {
        find_node(node, places, alloc, names, scope)?;
    }
    Ok(())
}

#[cycle(walk)]
fn find_node(
    node: &Markup,
    places: &mut Items<Span>,
    alloc: Global,
    names: &Names,
    scope: &Scope<'_>,
) -> Result<(), NoMemory>
    ensures { OnOk result (places.new ≡ places.old ++ (spec.node node.now).places names.now (visible scope.now)) }
{
    match node {
        Markup::Text { .. } => Ok(()),
        Markup::Show { value, .. } => find_shown(value, places, names, scope),
        Markup::Element {
            attrs,
            children,
            ..
        }
        | Markup::Slot {
            attrs,
            children,
            ..
        } => find_element(
            children.as_slice(),
            attrs.as_slice(),
            places,
            alloc,
            names,
            scope,
        ),
        Markup::Comp {
            attrs,
            children,
            ..
        } => find_component(
            children.as_slice(),
            attrs.as_slice(),
            places,
            alloc,
            names,
            scope,
        ),
        Markup::If { arms, last, .. } => {
            find_branches(arms.as_slice(), places, alloc, names, scope)?;
            match last {
                Some(last) => find_nodes(last.as_slice(), places, alloc, names, scope),
                None => Ok(()),
            }
        }
        Markup::Each {
            list,
            item,
            index,
            key,
            body,
            none,
            ..
        } => {
            find_shown(list, places, names, scope)?;
            find_row(
                body.as_slice(),
                item,
                index,
                key,
                places,
                alloc,
                names,
                scope,
            )?;
            match none {
                Some(none) => find_nodes(none.as_slice(), places, alloc, names, scope),
                None => Ok(()),
            }
        }
        Markup::Key { value, body, .. } => {
            find_shown(value, places, names, scope)?;
            find_nodes(body.as_slice(), places, alloc, names, scope)
        }
    }
}

#[cycle(walk)]
fn find_branches(
    branches: &[Branch],
    places: &mut Items<Span>,
    alloc: Global,
    names: &Names,
    scope: &Scope<'_>,
) -> Result<(), NoMemory>
    ensures { OnOk result (places.new ≡ places.old ++ each (map spec.branch_places branches.now) names.now (visible scope.now)) }
{
    for branch in branches {
        find_shown(&branch.test, places, names, scope)?;
        find_nodes(branch.body.as_slice(), places, alloc, names, scope)?;
    }
    Ok(())
}

#[cycle(walk)]
#[tactic(auto, unfolding(crate::specs::Impure::row, crate::specs::Impure::within))]
fn find_row(
    body: &[Markup],
    item: &Named,
    index: &Option<Named>,
    key: &Option<Expr>,
    places: &mut Items<Span>,
    alloc: Global,
    names: &Names,
    scope: &Scope<'_>,
) -> Result<(), NoMemory>
    ensures { OnOk result (places.new ≡ places.old ++ spec.row item.now index.now key.now (spec.nodes (map spec.node body.now)) names.now (visible scope.now)) }
{
    let own = row_names(alloc, item, index)?;
    let inside = hiding(&*scope, &own);
    find_given(key, places, names, &inside)?;
    find_nodes(body, places, alloc, names, &inside)
}

#[cycle(walk)]
#[tactic(auto, unfolding(crate::specs::Impure::tag, crate::specs::Impure::within))]
fn find_element(
    children: &[Markup],
    attrs: &[TagAttr],
    places: &mut Items<Span>,
    alloc: Global,
    names: &Names,
    scope: &Scope<'_>,
) -> Result<(), NoMemory>
    ensures { OnOk result (places.new ≡ places.old ++ spec.tag attrs.now (spec.nodes (map spec.node children.now)) names.now (visible scope.now)) }
{
    if !is_slotted(attrs) {
        find_attributes(attrs, places, names, scope)?;
        return find_nodes(children, places, alloc, names, scope);
    }
    let own = let_names(alloc, attrs)?;
    let inside = hiding(&*scope, &own);
    find_attributes(attrs, places, names, &inside)?;
    find_nodes(children, places, alloc, names, &inside)
}

#[cycle(walk)]
#[tactic(auto, unfolding(crate::specs::Impure::component, crate::specs::Impure::content))]
fn find_component(
    children: &[Markup],
    attrs: &[TagAttr],
    places: &mut Items<Span>,
    alloc: Global,
    names: &Names,
    scope: &Scope<'_>,
) -> Result<(), NoMemory>
    ensures { OnOk result (places.new ≡ places.old ++ spec.component attrs.now (map spec.node children.now) names.now (visible scope.now)) }
{
    if is_slotted(attrs) {
        return find_element(children, attrs, places, alloc, names, scope);
    }
    find_attributes(attrs, places, names, scope)?;
    let own = let_names(alloc, attrs)?;
    let inside = hiding(&*scope, &own);
    find_content(children, places, alloc, names, scope, &inside)
}

// What is found in the content of a component's tag, whose default content is in a scope of its own.
#[cycle(walk)]
fn find_content(
    children: &[Markup],
    places: &mut Items<Span>,
    alloc: Global,
    names: &Names,
    scope: &Scope<'_>,
    inside: &Scope<'_>,
) -> Result<(), NoMemory>
    ensures { OnOk result (places.new ≡ places.old ++ flat_map (λ n. spec.node_in (visible scope.now) (visible inside.now) n names.now) (map spec.node children.now)) }
{
    for child in children {
        find_child(child, places, alloc, names, scope, inside)?;
    }
    Ok(())
}

#[cycle(walk)]
fn find_child(
    child: &Markup,
    places: &mut Items<Span>,
    alloc: Global,
    names: &Names,
    scope: &Scope<'_>,
    inside: &Scope<'_>,
) -> Result<(), NoMemory>
    ensures { OnOk result (places.new ≡ places.old ++ spec.node_in (visible scope.now) (visible inside.now) (spec.node child.now) names.now) }
{
    if is_part(child) {
        return find_node(child, places, alloc, names, scope);
    }
    find_node(child, places, alloc, names, inside)
}

// Whether a node is a part of its own in the content of a component.
fn is_part(node: &Markup) -> bool
    ensures { result ≡ (spec.node node.now).slotted }
{
    match node {
        Markup::Element { attrs, .. } | Markup::Comp { attrs, .. } | Markup::Slot { attrs, .. } => {
            is_slotted(attrs.as_slice())
        }
        Markup::Text { .. }
        | Markup::Show { .. }
        | Markup::If { .. }
        | Markup::Each { .. }
        | Markup::Key { .. } => false,
    }
}
