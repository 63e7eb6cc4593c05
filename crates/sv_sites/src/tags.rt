// What a tag has of its own.
ghost use Rattle.std.specs.Prelude.{◌≡◌, ◌++◌, [], map, OnOk};
ghost use Rattle.std.specs.List.{flat_map};
ghost use Rattle.sv_sites.specs.Hidden.{all_hidden};
ghost use Rattle.sv_sites.specs.Sites as spec;

use crate::attributes::target;
use crate::content::add_contents;
use crate::hidden::Hidden;
use crate::site::{Site, Sites};
use crate::texts::{input_type, may_bind};
use std::alloc::Global;
use sv_ast::{AttrKind, Markup, TagAttr};
use sv_base::{Name, Names, NoMemory};

/// Notes what the attributes of an element bind.
pub(crate) fn add_element_attrs(
    sites: &mut Sites,
    names: &Names,
    hidden: &Hidden<'_>,
    name: &str,
    attrs: &[TagAttr],
) -> Result<(), NoMemory>
    ensures { OnOk result (sites.new ≡ sites.old ++ spec.element_attrs name.now attrs.now names.now (all_hidden hidden.now)) }
{
    let kind = input_type(names, attrs);
    for attr in attrs {
        add_element_attr(sites, names, hidden, name, kind, attr)?;
    }
    Ok(())
}

fn add_element_attr(
    sites: &mut Sites,
    names: &Names,
    hidden: &Hidden<'_>,
    name: &str,
    kind: &str,
    attr: &TagAttr,
) -> Result<(), NoMemory>
    ensures { OnOk result (sites.new ≡ sites.old ++ spec.element_site names.now name.now kind.now (all_hidden hidden.now) attr.now attr.now.kind) }
{
    match attr.kind {
        AttrKind::Bind => sites.push(Site::Bind {
            fits: may_bind(names, name, kind, attr.name),
            target: target(hidden, attr),
            at: attr.span,
        }),
        AttrKind::Plain | AttrKind::On | AttrKind::Class | AttrKind::Let | AttrKind::Slot => Ok(()),
    }
}

/// Notes what a component's tag has of its own: props, what it binds, and content for slots.
pub(crate) fn add_component_tag(
    alloc: Global,
    sites: &mut Sites,
    hidden: &Hidden<'_>,
    of: Name,
    attrs: &[TagAttr],
    children: &[Markup],
) -> Result<(), NoMemory>
    ensures { OnOk result (sites.new ≡ sites.old ++ spec.component_tag of attrs.now (map (λ n. n.child) (map spec.node children.now)) [] (all_hidden hidden.now)) }
{
    for attr in attrs {
        add_component_attr(sites, hidden, of, attr)?;
    }
    add_contents(alloc, sites, of, children)
}

fn add_component_attr(
    sites: &mut Sites,
    hidden: &Hidden<'_>,
    of: Name,
    attr: &TagAttr,
) -> Result<(), NoMemory>
    ensures { OnOk result (sites.new ≡ sites.old ++ spec.component_site of (all_hidden hidden.now) attr.now attr.now.kind) }
{
    match attr.kind {
        AttrKind::Plain => sites.push(Site::Prop {
            of,
            name: attr.name,
            at: attr.span,
        }),
        AttrKind::Bind => sites.push(Site::PropBind {
            of,
            name: attr.name,
            target: target(hidden, attr),
            at: attr.span,
        }),
        AttrKind::On | AttrKind::Class | AttrKind::Let | AttrKind::Slot => Ok(()),
    }
}
