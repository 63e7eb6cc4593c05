// The attributes that an element shows.
ghost use Rattle.std.specs.Prelude.{◌≡◌, ◌++◌, slice_get, option_copied, IfOk, OnOk};
ghost use Rattle.sv_attributes.specs.Attributes as spec;

use crate::attr::{bound_attr, is_boolean, name_text, place, value_attr};
use crate::class::{has_directive, is_class_name, place_class};
use std::alloc::Global;
use sv_base::{Name, NoMemory};
use sv_code::{FragAttr, FragValue, Program};
use sv_list::Items;
use sv_shapes::AttrState;
use sv_tokens::Attribute;

/// The attributes and directives of an element, and what each of them came to. What is made takes its memory from `alloc`.
#[derive(Clone, Copy)]
pub struct Attrs<'a> {
    pub alloc: Global,
    pub program: &'a Program,
    pub list: &'a [FragAttr],
    pub states: &'a [AttrState],
}

/// What the attribute with a number came to.
pub fn state_at(states: &[AttrState], number: usize) -> Option<&AttrState>
    ensures { option_copied result ≡ slice_get states.now number }
{
    states.get(number)
}

// Adds an attribute that directives have no say in.
fn place_plain(
    attrs: &Attrs<'_>,
    name: Name,
    value: &FragValue,
    number: usize,
    all: &mut Items<Attribute>,
) -> Result<(), NoMemory>
    ensures { OnOk result (all.new ≡ all.old ++ spec.plain attrs.now.program.now name value.now (slice_get attrs.now.states.now number) number) }
{
    let boolean = is_boolean(attrs.program, name);
    let shown = value_attr(attrs.alloc, boolean, value, state_at(attrs.states, number))?;
    let name = name_text(attrs.program, name);
    place(attrs.alloc, all, number, name, shown)
}

// Adds what a binding shows.
fn place_bound(
    attrs: &Attrs<'_>,
    name: Name,
    number: usize,
    all: &mut Items<Attribute>,
) -> Result<(), NoMemory>
    ensures { OnOk result (all.new ≡ all.old ++ spec.bound attrs.now.program.now name (slice_get attrs.now.states.now number) number) }
{
    let shown = bound_attr(state_at(attrs.states, number))?;
    let name = name_text(attrs.program, name);
    place(attrs.alloc, all, number, name, shown)
}

// Adds what is shown of the attribute or directive with a number.
fn place_attr(
    attrs: &Attrs<'_>,
    attr: &FragAttr,
    number: usize,
    all: &mut Items<Attribute>,
) -> Result<(), NoMemory>
    ensures { OnOk result (all.new ≡ all.old ++ spec.attr_at attrs.now.program.now attrs.now.list.now attrs.now.states.now attr.now number) }
{
    match attr {
        FragAttr::Plain { name, value, .. } => {
            if is_class_name(attrs.program, *name) && has_directive(attrs.list) {
                place_class(attrs, number, all)
            } else {
                place_plain(attrs, *name, value, number, all)
            }
        }
        FragAttr::On { .. } => Ok(()),
        FragAttr::Bind { name, .. } => place_bound(attrs, *name, number, all),
        FragAttr::Class { .. } => place_class(attrs, number, all),
    }
}

/// The attributes that an element shows, in the order of the template.
pub fn attributes(attrs: &Attrs<'_>) -> Result<Items<Attribute>, NoMemory>
    ensures { IfOk result (λ all. all ≡ spec.attributes attrs.now.program.now attrs.now.list.now attrs.now.states.now) }
{
    let mut all = Items::new(attrs.alloc);
    for number in 0..attrs.list.len() {
        place_attr(attrs, &attrs.list[number], number, &mut all)?;
    }
    Ok(all)
}
