// The mistakes of tags.
ghost use Rattle.std.specs.Prelude.{◌≡◌, ◌++◌, IfOk, OnOk};
ghost use Rattle.sv_names.specs.Distinct.{has};
ghost use Rattle.sv_sites.specs.Sites.{is_given};
ghost use Rattle.sv_slots.specs.Binds as bind_spec;
ghost use Rattle.sv_slots.specs.Props as prop_spec;
ghost use Rattle.sv_slots.specs.Slots as slot_spec;
ghost use Rattle.sv_slots.specs.Sheets as spec;

use crate::sheets::Sheet;
use std::alloc::Global;
use sv_ast::Ref;
use sv_base::{Name, NoMemory, Span};
use sv_list::Items;
use sv_names::Distinct;
use sv_scopes::VIEW;
use sv_sites::{Site, is_given};

/// The places of the plain attributes of components' tags in a file that aren't props of the component: what it doesn't declare by
/// `export let` (Svelte 4 docs, 'export creates a component prop'). `all` is what is known of all files, and `own` of this one.
pub fn unknown_props(alloc: Global, all: &[Sheet], own: &Sheet) -> Result<Items<Span>, NoMemory>
    ensures { IfOk result (λ places. places ≡ prop_spec.unknown_props all.now own.now) }
{
    let mut places = Items::new(alloc);
    for site in &own.sites {
        add_prop(&mut places, all, own, site)?;
    }
    Ok(places)
}

fn add_prop(
    places: &mut Items<Span>,
    all: &[Sheet],
    own: &Sheet,
    site: &Site,
) -> Result<(), NoMemory>
    ensures { OnOk result (places.new ≡ places.old ++ prop_spec.wrong_prop all.now own.now site.now) }
{
    match site {
        Site::Prop { of, name, at } => add_unless(places, has_prop(all, own, *of, *name), *at),
        Site::Content { .. } | Site::PropBind { .. } | Site::Bind { .. } | Site::Slot(_) => Ok(()),
    }
}

/// The places of content for slots that the component of a tag hasn't, and of content for a slot for which the tag has content before:
/// default content is for the slot with the empty name (Svelte 4 docs, '<slot name="..">'). The place is that of the content's first
/// node.
pub fn unknown_slots(alloc: Global, all: &[Sheet], own: &Sheet) -> Result<Items<Span>, NoMemory>
    ensures { IfOk result (λ places. places ≡ slot_spec.unknown_slots all.now own.now) }
{
    let mut places = Items::new(alloc);
    for site in &own.sites {
        add_content(&mut places, all, own, site)?;
    }
    Ok(places)
}

fn add_content(
    places: &mut Items<Span>,
    all: &[Sheet],
    own: &Sheet,
    site: &Site,
) -> Result<(), NoMemory>
    ensures { OnOk result (places.new ≡ places.old ++ slot_spec.wrong_slot all.now own.now site.now) }
{
    match site {
        Site::Content {
            of,
            slot,
            again,
            at,
        } => add_unless(
            places,
            !*again && has_slot(all, own, *of, slot.as_str()),
            *at,
        ),
        Site::Prop { .. } | Site::PropBind { .. } | Site::Bind { .. } | Site::Slot(_) => Ok(()),
    }
}

/// The places of the `bind:`s in a file that bind what is no cell of the component, or that may not stand at their element, or that
/// bind no prop of their component. A cell is a variable, of which the file's are given, or the store `$x`; a row's or a slot's name is
/// none (Svelte 4 docs, 'bind:property').
pub fn bad_binds(
    alloc: Global,
    variables: &Distinct,
    all: &[Sheet],
    own: &Sheet,
) -> Result<Items<Span>, NoMemory>
    ensures { IfOk result (λ places. places ≡ bind_spec.bad_binds variables.now all.now own.now) }
{
    let mut places = Items::new(alloc);
    for site in &own.sites {
        add_bind(&mut places, variables, all, own, site)?;
    }
    Ok(places)
}

fn add_bind(
    places: &mut Items<Span>,
    variables: &Distinct,
    all: &[Sheet],
    own: &Sheet,
    site: &Site,
) -> Result<(), NoMemory>
    ensures { OnOk result (places.new ≡ places.old ++ bind_spec.wrong_bind variables.now all.now own.now site.now) }
{
    match site {
        Site::Bind { fits, target, at } => {
            add_unless(places, *fits && binds_cell(variables, *target), *at)
        }
        Site::PropBind {
            of,
            name,
            target,
            at,
        } => add_unless(
            places,
            has_prop(all, own, *of, *name) && binds_cell(variables, *target),
            *at,
        ),
        Site::Prop { .. } | Site::Content { .. } | Site::Slot(_) => Ok(()),
    }
}

fn add_unless(places: &mut Items<Span>, is_right: bool, at: Span) -> Result<(), NoMemory>
    ensures { OnOk result (places.new ≡ places.old ++ spec.unless_right is_right at) }
{
    if !is_right {
        places.push(at)?;
    }
    Ok(())
}

fn binds_cell(variables: &Distinct, target: Option<Ref>) -> bool
    ensures { result ≡ bind_spec.binds_cell variables.now target }
{
    match target {
        Some(Ref::Plain(name)) => variables.has(Ref::Plain(name)),
        Some(Ref::Store(name)) => Ref::Store(name) != VIEW,
        None => false,
    }
}

fn has_prop(all: &[Sheet], own: &Sheet, of: Name, name: Name) -> bool
    ensures { result ≡ has (Ref.Plain name) (spec.child_props all.now own.now of) }
{
    let Some(file) = own.children.get(Ref::Plain(of)) else {
        return false;
    };
    match all.get(file) {
        Some(child) => child.props.has(Ref::Plain(name)),
        None => false,
    }
}

fn has_slot(all: &[Sheet], own: &Sheet, of: Name, slot: &str) -> bool
    ensures { result ≡ is_given (spec.child_slots all.now own.now of) slot.now }
{
    let Some(file) = own.children.get(Ref::Plain(of)) else {
        return false;
    };
    match all.get(file) {
        Some(child) => is_given(&child.slots, slot),
        None => false,
    }
}
