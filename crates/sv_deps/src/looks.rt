// What content looks at.
ghost use Rattle.std.specs.Prelude.{◌≡◌, ◌≤◌, ◌++◌, List, [], map, option_map, nat_eq, IfOk, OnOk};
ghost use Rattle.std.specs.List.{list_any};
ghost use Rattle.sv_ast.specs.declared.names.Ref.{Ref as AnyRef};
ghost use Rattle.sv_names.specs.Distinct.{firsts};
ghost use Rattle.sv_names.specs.Locals.{name_of as spec_name_of, names_of};
ghost use Rattle.sv_deps.specs.Looks as spec;

use crate::around::{let_names, row_names};
use crate::names::add_if;
use std::alloc::Global;
use sv_ast::{Ref, RefList};
use sv_base::{Name, NoMemory};
use sv_code::{
    CellList, Frag, FragArm, FragAttr, FragValue, FragValuePart, LetName, Locals, Part, Reading,
};
use sv_names::{Distinct, LocalScope, is_local, name_of};

// What was found so far, in the order of the text: numbers of cells, and locals.
#[derive(Drop)]
struct Seen {
    cells: CellList,
    locals: RefList,
}

/// What the content of a component's tag looks at, where its default content has some names and the component that it stands in has
/// `count` cells: the cells by number and the locals of its parts, handlers and tags, but for the names of its own rows and slot props, and
/// the owner's view, where it has a `<slot>`. `NoMemory` comes only where memory runs out.
pub fn looked_at(
    alloc: Global,
    count: usize,
    lets: &[LetName],
    content: &[Frag],
) -> Result<Reading, NoMemory>
    requires { count ≤ 256 }
    ensures { IfOk result (λ reading. reading ≡ spec.looked_at count lets.now content.now) }
{
    let names = let_names(alloc, lets)?;
    let mut seen = nothing(alloc);
    find_content(alloc, &mut seen, &names, content)?;
    gathered(alloc, count, &seen)
}

/// What a component's tag looks at, in a component that has `count` cells: what its attributes and its content do. `NoMemory` comes at
/// `NoMemory` alone.
pub fn tag_looks(
    alloc: Global,
    count: usize,
    attrs: &[FragAttr],
    content: &Reading,
) -> Result<Reading, NoMemory>
    requires { count ≤ 256 }
    ensures { IfOk result (λ reading. reading ≡ spec.tag_looks count attrs.now content.now) }
{
    let mut seen = nothing(alloc);
    find_attrs(&mut seen, &LocalScope::Outside, attrs)?;
    find_reads(&mut seen, &LocalScope::Outside, content)?;
    gathered(alloc, count, &seen)
}

fn nothing(alloc: Global) -> Seen
    ensures { result ≡ record { cells = []; locals = [] } }
{
    Seen {
        cells: CellList::new(alloc),
        locals: RefList::new(alloc),
    }
}

// Cells by number, each once, and locals by first appearance.
fn gathered(alloc: Global, count: usize, seen: &Seen) -> Result<Reading, NoMemory>
    requires { count ≤ 256 }
    ensures { IfOk result (λ reading. reading ≡ spec.gathered count (record { cells = seen.now.cells; locals = seen.now.locals })) }
{
    Ok(Reading {
        cells: in_order(alloc, count, seen.cells.as_slice())?,
        locals: each_once(alloc, seen.locals.as_slice())?,
    })
}

// The numbers below `count` that are among some.
fn in_order(alloc: Global, count: usize, numbers: &[u8]) -> Result<CellList, NoMemory>
    requires { count ≤ 256 }
    ensures { IfOk result (λ list. list ≡ spec.among_from 0 count numbers.now) }
{
    let mut list = CellList::new(alloc);
    for n in 0..count {
        add_if(&mut list, is_there(numbers, n as u8), n as u8)?;
    }
    Ok(list)
}

fn is_there(numbers: &[u8], n: u8) -> bool
    ensures { result ≡ list_any (nat_eq n) numbers.now }
{
    numbers.contains(&n)
}

// Some names, each once.
fn each_once(alloc: Global, names: &[Ref]) -> Result<Locals, NoMemory>
    ensures { IfOk result (λ list. list ≡ map spec_name_of (firsts names.now)) }
{
    let mut known = Distinct::new(alloc);
    let mut list = Locals::new(alloc);
    for name in names {
        if !known.has(*name) {
            known.add(*name)?;
            list.push(name_of(*name))?;
        }
    }
    Ok(list)
}

fn find_content(
    alloc: Global,
    seen: &mut Seen,
    names: &Distinct,
    content: &[Frag],
) -> Result<(), NoMemory>
    ensures { OnOk result (spec.Finds seen.old seen.new (spec.content names.now content.now [])) }
{
    let inside = LocalScope::inside(&LocalScope::Outside, names);
    for node in content {
        find_in_content(alloc, seen, &inside, node)?;
    }
    Ok(())
}

// A node of content. What goes to a slot with a name is outside the default content.
fn find_in_content(
    alloc: Global,
    seen: &mut Seen,
    inside: &LocalScope<'_>,
    node: &Frag,
) -> Result<(), NoMemory>
    ensures { OnOk result ((names : List AnyRef) → names_of inside.now ≡ names → spec.Finds seen.old seen.new (spec.in_content names (spec.node node.now) [])) }
{
    match node {
        Frag::Named { .. } => find_node(alloc, seen, &LocalScope::Outside, node),
        _ => find_node(alloc, seen, inside, node),
    }
}

#[cycle(walk)]
#[tactic(auto, using(crate::proofs::Onward::finds_both))]
fn find_nodes(
    alloc: Global,
    seen: &mut Seen,
    own: &LocalScope<'_>,
    nodes: &[Frag],
) -> Result<(), NoMemory>
    ensures { OnOk result (spec.Finds seen.old seen.new (spec.nodes (map spec.node nodes.now) (names_of own.now))) }
{
    for node in nodes {
        find_node(alloc, seen, own, node)?;
    }
    Ok(())
}

#[cycle(walk)]
#[tactic(auto, using(crate::proofs::Onward::finds_both))]
fn find_node(
    alloc: Global,
    seen: &mut Seen,
    own: &LocalScope<'_>,
    node: &Frag,
) -> Result<(), NoMemory>
    ensures { OnOk result (spec.Finds seen.old seen.new ((spec.node node.now).looks (names_of own.now))) }
{
    match node {
        Frag::Text(_) => Ok(()),
        Frag::Show(part) => find_part(seen, own, part),
        Frag::Element {
            attrs,
            children,
            ..
        } => {
            find_attrs(seen, own, attrs.as_slice())?;
            find_nodes(alloc, seen, own, children.as_slice())
        }
        Frag::Tag { reads, .. } => find_reads(seen, own, reads),
        Frag::Named { lets, node, .. } => {
            find_named(alloc, seen, own, lets.as_slice(), node.get())
        }
        Frag::Slot {
            attrs,
            own: shown,
            reads,
            ..
        } => find_slot(alloc, seen, own, shown.as_slice(), attrs.as_slice(), reads),
        Frag::If { arms, last } => {
            find_arms(alloc, seen, own, arms.as_slice())?;
            match last {
                Some(last) => find_nodes(alloc, seen, own, last.as_slice()),
                None => Ok(()),
            }
        }
        Frag::Each {
            list,
            item,
            index,
            key,
            body,
            none,
        } => {
            find_part(seen, own, list)?;
            find_row(alloc, seen, own, *item, *index, key, body.as_slice())?;
            match none {
                Some(none) => find_nodes(alloc, seen, own, none.as_slice()),
                None => Ok(()),
            }
        }
        Frag::Key { value, body } => find_key(alloc, seen, own, body.as_slice(), value),
    }
}

#[cycle(walk)]
#[tactic(auto, using(crate::proofs::Onward::finds_both))]
fn find_slot(
    alloc: Global,
    seen: &mut Seen,
    own: &LocalScope<'_>,
    shown: &[Frag],
    attrs: &[FragAttr],
    reads: &Reading,
) -> Result<(), NoMemory>
    ensures { OnOk result (spec.Finds seen.old seen.new (spec.both (spec.read reads.now) (spec.both (spec.attrs attrs.now) (spec.nodes (map spec.node shown.now))) (names_of own.now))) }
{
    find_reads(seen, own, reads)?;
    find_attrs(seen, own, attrs)?;
    find_nodes(alloc, seen, own, shown)
}

#[cycle(walk)]
#[tactic(auto, using(crate::proofs::Onward::finds_both))]
fn find_key(
    alloc: Global,
    seen: &mut Seen,
    own: &LocalScope<'_>,
    body: &[Frag],
    value: &Part,
) -> Result<(), NoMemory>
    ensures { OnOk result (spec.Finds seen.old seen.new (spec.both (spec.part value.now) (spec.nodes (map spec.node body.now)) (names_of own.now))) }
{
    find_part(seen, own, value)?;
    find_nodes(alloc, seen, own, body)
}

// What goes to a slot with a name.
#[cycle(walk)]
#[tactic(auto, using(crate::proofs::Onward::finds_both))]
fn find_named(
    alloc: Global,
    seen: &mut Seen,
    own: &LocalScope<'_>,
    lets: &[LetName],
    node: &Frag,
) -> Result<(), NoMemory>
    ensures { OnOk result (spec.Finds seen.old seen.new (spec.within (spec.let_names lets.now) (spec.node node.now).looks (names_of own.now))) }
{
    let names = let_names(alloc, lets)?;
    let inside = LocalScope::inside(&*own, &names);
    find_node(alloc, seen, &inside, node)
}

// A row of an each block: its key and its content.
#[cycle(walk)]
#[tactic(auto, using(crate::proofs::Onward::finds_both))]
fn find_row(
    alloc: Global,
    seen: &mut Seen,
    own: &LocalScope<'_>,
    item: Name,
    index: Option<Name>,
    key: &Option<Part>,
    body: &[Frag],
) -> Result<(), NoMemory>
    ensures { OnOk result (spec.Finds seen.old seen.new (spec.within (spec.row_names item index) (spec.both (spec.given (option_map spec.part key.now)) (spec.nodes (map spec.node body.now))) (names_of own.now))) }
{
    let names = row_names(alloc, item, index)?;
    let inside = LocalScope::inside(&*own, &names);
    find_optional(seen, &inside, key)?;
    find_nodes(alloc, seen, &inside, body)
}

#[cycle(walk)]
#[tactic(auto, using(crate::proofs::Onward::finds_both))]
fn find_arms(
    alloc: Global,
    seen: &mut Seen,
    own: &LocalScope<'_>,
    arms: &[FragArm],
) -> Result<(), NoMemory>
    ensures { OnOk result (spec.Finds seen.old seen.new (spec.in_turn (map spec.arm_looks arms.now) (names_of own.now))) }
{
    for arm in arms {
        find_arm(alloc, seen, own, arm)?;
    }
    Ok(())
}

#[cycle(walk)]
#[tactic(auto, using(crate::proofs::Onward::finds_both))]
fn find_arm(
    alloc: Global,
    seen: &mut Seen,
    own: &LocalScope<'_>,
    arm: &FragArm,
) -> Result<(), NoMemory>
    ensures { OnOk result (spec.Finds seen.old seen.new (spec.arm_looks arm.now (names_of own.now))) }
{
    find_part(seen, own, &arm.test)?;
    find_nodes(alloc, seen, own, arm.body.as_slice())
}

fn find_attrs(seen: &mut Seen, own: &LocalScope<'_>, attrs: &[FragAttr]) -> Result<(), NoMemory>
    ensures { OnOk result (spec.Finds seen.old seen.new (spec.attrs attrs.now (names_of own.now))) }
{
    for attr in attrs {
        find_attr(seen, own, attr)?;
    }
    Ok(())
}

fn find_attr(seen: &mut Seen, own: &LocalScope<'_>, attr: &FragAttr) -> Result<(), NoMemory>
    ensures { OnOk result (spec.Finds seen.old seen.new (spec.attr attr.now (names_of own.now))) }
{
    match attr {
        FragAttr::Plain { value, .. } => find_value(seen, own, value),
        FragAttr::On { reads, .. } => find_reads(seen, own, reads),
        FragAttr::Bind { target, .. } => find_part(seen, own, target),
        FragAttr::Class { test, .. } => find_part(seen, own, test),
    }
}

fn find_value(seen: &mut Seen, own: &LocalScope<'_>, value: &FragValue) -> Result<(), NoMemory>
    ensures { OnOk result (spec.Finds seen.old seen.new (spec.value value.now (names_of own.now))) }
{
    match value {
        FragValue::Bare => Ok(()),
        FragValue::Parts(parts) => find_value_parts(seen, own, parts.as_slice()),
    }
}

fn find_value_parts(
    seen: &mut Seen,
    own: &LocalScope<'_>,
    parts: &[FragValuePart],
) -> Result<(), NoMemory>
    ensures { OnOk result (spec.Finds seen.old seen.new (spec.in_turn (map spec.value_part parts.now) (names_of own.now))) }
{
    for part in parts {
        find_value_part(seen, own, part)?;
    }
    Ok(())
}

fn find_value_part(
    seen: &mut Seen,
    own: &LocalScope<'_>,
    part: &FragValuePart,
) -> Result<(), NoMemory>
    ensures { OnOk result (spec.Finds seen.old seen.new (spec.value_part part.now (names_of own.now))) }
{
    match part {
        FragValuePart::Text(_) => Ok(()),
        FragValuePart::Show(part) => find_part(seen, own, part),
    }
}

fn find_optional(seen: &mut Seen, own: &LocalScope<'_>, part: &Option<Part>) -> Result<(), NoMemory>
    ensures { OnOk result (spec.Finds seen.old seen.new (spec.given (option_map spec.part part.now) (names_of own.now))) }
{
    match part {
        Some(part) => find_part(seen, own, part),
        None => Ok(()),
    }
}

fn find_part(seen: &mut Seen, own: &LocalScope<'_>, part: &Part) -> Result<(), NoMemory>
    ensures { OnOk result (spec.Finds seen.old seen.new (spec.part part.now (names_of own.now))) }
{
    find_reads(seen, own, &part.reads)
}

fn find_reads(seen: &mut Seen, own: &LocalScope<'_>, reads: &Reading) -> Result<(), NoMemory>
    ensures { OnOk result (spec.Finds seen.old seen.new (spec.read reads.now (names_of own.now))) }
{
    seen.cells.extend_from_slice(reads.cells.as_slice())?;
    add_locals(&mut seen.locals, own, reads.locals.as_slice())
}

fn add_locals(locals: &mut RefList, own: &LocalScope<'_>, more: &[Name]) -> Result<(), NoMemory>
    ensures { OnOk result (locals.new ≡ locals.old ++ spec.others (names_of own.now) more.now) }
{
    for name in more {
        if !is_local(own, Ref::Plain(*name)) {
            locals.push(Ref::Plain(*name))?;
        }
    }
    Ok(())
}
