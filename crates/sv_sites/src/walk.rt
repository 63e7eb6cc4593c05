// The walk through markup.
ghost use Rattle.std.specs.Prelude.{◌≡◌, ◌++◌, [], map, IfOk, OnOk};
ghost use Rattle.sv_names.specs.Distinct.{firsts};
ghost use Rattle.sv_scopes.specs.Rows.{row_names as spec_row_names};
ghost use Rattle.sv_sites.specs.Hidden.{all_hidden};
ghost use Rattle.sv_sites.specs.Sites as spec;

use crate::content::is_part;
use crate::hidden::Hidden;
use crate::site::{Site, Sites};
use crate::tags::{add_component_tag, add_element_attrs};
use std::alloc::Global;
use sv_ast::{Branch, Component, Markup, Named, TagAttr};
use sv_base::{Name, Names, NoMemory, Text};
use sv_names::Distinct;
use sv_scopes::{is_slotted, let_names, row_names};

/// The sites of a component, in the order of its tags. `names` are those with which it was read. `NoMemory` comes where memory runs out
/// alone.
///
/// - A plain attribute of a component's tag gives it a prop.
/// - Content of a component's tag goes to the slot that a node names by its `slot` attribute, and what has none goes to the default slot,
///   from the first node on that isn't white space alone (Svelte 4 docs, '<slot name="..">').
/// - A `bind:` of an element may stand as `bind:value` on an `input` whose literal `type` is neither `checkbox` nor `radio`, and as
///   `bind:checked` on a checkbox.
/// - What a `bind:` binds is no name of the top level where a row or a slot prop hides it.
pub fn sites_of(alloc: Global, names: &Names, c: &Component) -> Result<Sites, NoMemory>
    ensures { IfOk result (λ sites. sites ≡ spec.component_sites names.now c.now) }
{
    let mut sites = Sites::new(alloc);
    find_nodes(
        alloc,
        &mut sites,
        names,
        &Hidden::Nothing,
        c.nodes.as_slice(),
    )?;
    Ok(sites)
}

#[cycle(walk)]
fn find_nodes(
    alloc: Global,
    sites: &mut Sites,
    names: &Names,
    hidden: &Hidden<'_>,
    nodes: &[Markup],
) -> Result<(), NoMemory>
    ensures { OnOk result (sites.new ≡ sites.old ++ spec.nodes (map spec.node nodes.now) names.now (all_hidden hidden.now)) }
{
    for node in nodes {
        find_node(alloc, sites, names, hidden, node)?;
    }
    Ok(())
}

#[cycle(walk)]
fn find_node(
    alloc: Global,
    sites: &mut Sites,
    names: &Names,
    hidden: &Hidden<'_>,
    node: &Markup,
) -> Result<(), NoMemory>
    ensures { OnOk result (sites.new ≡ sites.old ++ (spec.node node.now).sites names.now (all_hidden hidden.now)) }
{
    match node {
        Markup::Text { .. } | Markup::Show { .. } => Ok(()),
        Markup::Element {
            name,
            attrs,
            children,
            ..
        } => find_element(
            alloc,
            sites,
            names,
            hidden,
            children.as_slice(),
            name,
            attrs.as_slice(),
        ),
        Markup::Comp {
            name,
            attrs,
            children,
            ..
        } => find_component(
            alloc,
            sites,
            names,
            hidden,
            children.as_slice(),
            *name,
            attrs.as_slice(),
        ),
        Markup::Slot {
            name,
            attrs,
            children,
            ..
        } => find_slot(
            alloc,
            sites,
            names,
            hidden,
            children.as_slice(),
            name,
            attrs.as_slice(),
        ),
        Markup::If { arms, last, .. } => {
            find_branches(alloc, sites, names, hidden, arms.as_slice())?;
            match last {
                Some(last) => find_nodes(alloc, sites, names, hidden, last.as_slice()),
                None => Ok(()),
            }
        }
        Markup::Each {
            item,
            index,
            body,
            none,
            ..
        } => {
            find_row(alloc, sites, names, hidden, body.as_slice(), item, index)?;
            match none {
                Some(none) => find_nodes(alloc, sites, names, hidden, none.as_slice()),
                None => Ok(()),
            }
        }
        Markup::Key { body, .. } => find_nodes(alloc, sites, names, hidden, body.as_slice()),
    }
}

#[cycle(walk)]
fn find_branches(
    alloc: Global,
    sites: &mut Sites,
    names: &Names,
    hidden: &Hidden<'_>,
    branches: &[Branch],
) -> Result<(), NoMemory>
    ensures { OnOk result (sites.new ≡ sites.old ++ spec.each (map spec.branch_sites branches.now) names.now (all_hidden hidden.now)) }
{
    for branch in branches {
        find_nodes(alloc, sites, names, hidden, branch.body.as_slice())?;
    }
    Ok(())
}

#[cycle(walk)]
fn find_row(
    alloc: Global,
    sites: &mut Sites,
    names: &Names,
    hidden: &Hidden<'_>,
    body: &[Markup],
    item: &Named,
    index: &Option<Named>,
) -> Result<(), NoMemory>
    ensures { OnOk result (sites.new ≡ sites.old ++ spec.within (firsts (spec_row_names item.now index.now)) (spec.nodes (map spec.node body.now)) names.now (all_hidden hidden.now)) }
{
    let own = row_names(alloc, item, index)?;
    find_nodes(alloc, sites, names, &Hidden::inside(&*hidden, &own), body)
}

#[cycle(walk)]
fn find_element(
    alloc: Global,
    sites: &mut Sites,
    names: &Names,
    hidden: &Hidden<'_>,
    children: &[Markup],
    name: &Text,
    attrs: &[TagAttr],
) -> Result<(), NoMemory>
    ensures { OnOk result (sites.new ≡ sites.old ++ spec.element name.now attrs.now (spec.nodes (map spec.node children.now)) names.now (all_hidden hidden.now)) }
{
    if !is_slotted(attrs) {
        add_element_attrs(sites, names, hidden, name.as_str(), attrs)?;
        return find_nodes(alloc, sites, names, hidden, children);
    }
    let own = let_names(alloc, attrs)?;
    let inside = Hidden::inside(&*hidden, &own);
    add_element_attrs(sites, names, &inside, name.as_str(), attrs)?;
    find_nodes(alloc, sites, names, &inside, children)
}

#[cycle(walk)]
fn find_slot(
    alloc: Global,
    sites: &mut Sites,
    names: &Names,
    hidden: &Hidden<'_>,
    children: &[Markup],
    name: &Text,
    attrs: &[TagAttr],
) -> Result<(), NoMemory>
    ensures { OnOk result (sites.new ≡ sites.old ++ spec.slot_tag name.now attrs.now (spec.nodes (map spec.node children.now)) names.now (all_hidden hidden.now)) }
{
    sites.push(Site::Slot(name.share()?))?;
    if !is_slotted(attrs) {
        return find_nodes(alloc, sites, names, hidden, children);
    }
    let own = let_names(alloc, attrs)?;
    find_nodes(
        alloc,
        sites,
        names,
        &Hidden::inside(&*hidden, &own),
        children,
    )
}

#[cycle(walk)]
fn find_component(
    alloc: Global,
    sites: &mut Sites,
    names: &Names,
    hidden: &Hidden<'_>,
    children: &[Markup],
    of: Name,
    attrs: &[TagAttr],
) -> Result<(), NoMemory>
    ensures { OnOk result (sites.new ≡ sites.old ++ spec.component of attrs.now (map spec.node children.now) names.now (all_hidden hidden.now)) }
{
    let own = let_names(alloc, attrs)?;
    if !is_slotted(attrs) {
        add_component_tag(alloc, sites, hidden, of, attrs, children)?;
        return find_content(alloc, sites, names, hidden, children, &own);
    }
    let inside = Hidden::inside(&*hidden, &own);
    add_component_tag(alloc, sites, &inside, of, attrs, children)?;
    let none = Distinct::new(alloc);
    find_content(alloc, sites, names, &inside, children, &none)
}

// What is found in the content of a component's tag, of whose default content some names are.
#[cycle(walk)]
fn find_content(
    alloc: Global,
    sites: &mut Sites,
    names: &Names,
    hidden: &Hidden<'_>,
    children: &[Markup],
    own: &Distinct,
) -> Result<(), NoMemory>
    ensures { OnOk result (sites.new ≡ sites.old ++ spec.content own.now (map spec.node children.now) names.now (all_hidden hidden.now)) }
{
    for child in children {
        find_child(alloc, sites, names, hidden, child, own)?;
    }
    Ok(())
}

#[cycle(walk)]
fn find_child(
    alloc: Global,
    sites: &mut Sites,
    names: &Names,
    hidden: &Hidden<'_>,
    child: &Markup,
    own: &Distinct,
) -> Result<(), NoMemory>
    ensures { OnOk result (sites.new ≡ sites.old ++ spec.content_node own.now (spec.node child.now) names.now (all_hidden hidden.now)) }
{
    if is_part(child) {
        return find_node(alloc, sites, names, hidden, child);
    }
    find_node(alloc, sites, names, &Hidden::inside(&*hidden, &*own), child)
}
