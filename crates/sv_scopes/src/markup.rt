// What is found in markup.
ghost use Rattle.std.specs.Prelude.{◌≡◌, ◌++◌, [], ◌∷◌, map, OnOk};
ghost use Rattle.std.specs.List.{flat_map};
ghost use Rattle.sv_scopes.specs.Attributes.{lets};
ghost use Rattle.sv_scopes.specs.Parts.{Finds, in_turn, using_name};
ghost use Rattle.sv_scopes.specs.Markup as spec;

use crate::attributes::{declare_lets, find_attributes, is_slotted, note_read, past};
use crate::declare::{declare, declare_index};
use crate::found::{Content, Found};
use crate::scope::{Binding, Form, Role, VIEW};
use crate::script::{find, find_given, use_of};
use sv_ast::{Branch, Expr, Markup, Named, Ref, TagAttr};
use sv_base::{Name, NoMemory, Span};

/// Finds what is in nodes.
#[cycle(markup)]
pub(crate) fn find_nodes(found: &mut Found, nodes: &[Markup]) -> Result<(), NoMemory>
    ensures { OnOk result (Finds found.old found.new (spec.nodes (map spec.node nodes.now))) }
{
    for node in nodes {
        find_node(found, node)?;
    }
    Ok(())
}

#[cycle(markup)]
fn find_node(found: &mut Found, node: &Markup) -> Result<(), NoMemory>
    ensures { OnOk result (Finds found.old found.new (spec.node node.now).parts) }
{
    match node {
        Markup::Text { .. } => Ok(()),
        Markup::Show { value, .. } => find(found, value, Role::Alone),
        Markup::Element {
            attrs,
            children,
            ..
        } => find_element(found, children.as_slice(), attrs.as_slice()),
        Markup::Comp {
            span,
            name,
            attrs,
            children,
        } => {
            note_tag(found, *name, *span)?;
            find_component(found, children.as_slice(), attrs.as_slice())
        }
        Markup::Slot {
            span,
            attrs,
            children,
            ..
        } => {
            note_read(found, VIEW, *span)?;
            find_element(found, children.as_slice(), attrs.as_slice())
        }
        Markup::If { arms, last, .. } => {
            find_branches(found, arms.as_slice())?;
            match last {
                Some(last) => find_nodes(found, last.as_slice()),
                None => Ok(()),
            }
        }
        Markup::Each {
            list,
            item,
            index,
            key,
            body,
            none,
            ..
        } => {
            find(found, list, Role::Alone)?;
            find_row(found, body.as_slice(), item, index, key)?;
            match none {
                Some(none) => find_nodes(found, none.as_slice()),
                None => Ok(()),
            }
        }
        Markup::Key { value, body, .. } => {
            find(found, value, Role::Alone)?;
            find_nodes(found, body.as_slice())
        }
    }
}

fn note_tag(found: &mut Found, name: Name, span: Span) -> Result<(), NoMemory>
    ensures { OnOk result (Finds found.old found.new (using_name (spec.tag_use name span))) }
{
    found.note(use_of(Ref::Plain(name), Form::Read, past(1, span), Role::Tag))
}

#[cycle(markup)]
fn find_branches(found: &mut Found, branches: &[Branch]) -> Result<(), NoMemory>
    ensures { OnOk result (Finds found.old found.new (in_turn (map spec.branch_parts branches.now))) }
{
    for branch in branches {
        find(found, &branch.test, Role::Alone)?;
        find_nodes(found, branch.body.as_slice())?;
    }
    Ok(())
}

#[cycle(markup)]
fn find_row(
    found: &mut Found,
    body: &[Markup],
    item: &Named,
    index: &Option<Named>,
    key: &Option<Expr>,
) -> Result<(), NoMemory>
    ensures { OnOk result (Finds found.old found.new (spec.row item.now index.now key.now (spec.nodes (map spec.node body.now)))) }
{
    let around = found.enter();
    declare(found, item, Binding::Local)?;
    declare_index(found, index)?;
    find_given(found, key)?;
    find_nodes(found, body)?;
    found.leave(around, false)
}

#[cycle(markup)]
fn find_element(found: &mut Found, children: &[Markup], attrs: &[TagAttr]) -> Result<(), NoMemory>
    ensures { OnOk result (Finds found.old found.new (spec.tag attrs.now (spec.nodes (map spec.node children.now)))) }
{
    if !is_slotted(attrs) {
        find_attributes(found, attrs)?;
        return find_nodes(found, children);
    }
    let around = found.enter();
    declare_lets(found, attrs)?;
    find_attributes(found, attrs)?;
    find_nodes(found, children)?;
    found.leave(around, false)
}

#[cycle(markup)]
fn find_component(found: &mut Found, children: &[Markup], attrs: &[TagAttr]) -> Result<(), NoMemory>
    ensures { OnOk result (Finds found.old found.new (spec.component attrs.now (map spec.node children.now))) }
{
    if !is_slotted(attrs) {
        find_attributes(found, attrs)?;
        return find_content(found, children, attrs);
    }
    let around = found.enter();
    declare_lets(found, attrs)?;
    find_attributes(found, attrs)?;
    find_content(found, children, &[])?;
    found.leave(around, false)
}

#[cycle(markup)]
fn find_content(found: &mut Found, children: &[Markup], attrs: &[TagAttr]) -> Result<(), NoMemory>
    ensures { OnOk result (Finds found.old found.new (spec.content (lets attrs.now) (map spec.node children.now))) }
{
    let around = found.enter();
    declare_lets(found, attrs)?;
    let mut content = found.begin_content(around)?;
    find_children(found, &mut content, children)?;
    found.end_content(content)
}

#[cycle(markup)]
fn find_children(
    found: &mut Found,
    content: &mut Content,
    children: &[Markup],
) -> Result<(), NoMemory>
    ensures found { OnOk result (Finds found.old found.new (in_turn (map (spec.around_default content.old.own) (map spec.node children.now)))) }
    ensures content { OnOk result (content.new ≡ record content.old { uses = content.old.uses ++ flat_map spec.default_uses (map spec.node children.now) }) }
{
    for child in children {
        find_child(found, content, child)?;
    }
    Ok(())
}

#[cycle(markup)]
fn find_child(found: &mut Found, content: &mut Content, child: &Markup) -> Result<(), NoMemory>
    ensures found { OnOk result (Finds found.old found.new (spec.around_default content.old.own (spec.node child.now))) }
    ensures content { OnOk result (content.new ≡ record content.old { uses = content.old.uses ++ spec.default_uses (spec.node child.now) }) }
{
    if is_part(child) {
        return find_node(found, child);
    }
    let around = found.enter();
    find_node(found, child)?;
    found.share(around, content)
}

// Whether a node is a part of its own in the content of a component.
fn is_part(node: &Markup) -> bool
    ensures { result ≡ (spec.node node.now).slotted }
{
    match node {
        Markup::Element { attrs, .. } | Markup::Comp { attrs, .. } | Markup::Slot { attrs, .. } => {
            is_slotted(attrs.as_slice())
        }
        Markup::Text { .. }
        | Markup::Show { .. }
        | Markup::If { .. }
        | Markup::Each { .. }
        | Markup::Key { .. } => false,
    }
}
