// Tags: elements, components and `<slot>`s.
ghost use Rattle.std.specs.Prelude.{◌≡◌, [], ◌∷◌, length, map, IfOk};
ghost use Rattle.sv_code.specs.declared.fragments.Frag.TheVariants as frag;
ghost use Rattle.sv_names.specs.Locals.{names_of};
ghost use Rattle.sv_deps.specs.Reading.{reading as spec_reading};
ghost use Rattle.sv_fragments.specs.Around.{seen, form_of};
ghost use Rattle.sv_fragments.specs.Frags.{node};
ghost use Rattle.sv_lower.specs.Does.{Makes};
ghost use Rattle.sv_fragments.specs.Pieces.{made_of};
ghost use Rattle.sv_fragments.specs.Tags as spec;

use crate::around::{Around, Tables};
use crate::attributes::{attrs_of, lets_of, next_number, slot_name};
use crate::markup::{ContentScope, make_content};
use std::alloc::Global;
use sv_ast::{Markup, Ref, TagAttr};
use sv_base::{Name, NoMemory, Span, Text};
use sv_code::{Frag, FragAttrs, Frags, LetNames, Tag};
use sv_deps::{looked_at, reading, tag_looks};
use sv_list::Boxed;
use sv_names::{Distinct, LocalScope, NameMap};
use sv_scopes::{VIEW, is_slotted, let_names};

/// The form of a tag, with its name.
#[derive(Clone, Copy)]
pub(crate) enum Form<'a> {
    Element(&'a Text),
    Component(Name),
    Slot(&'a Text),
}

/// A tag without what stands between its ends.
#[derive(Clone, Copy)]
pub(crate) struct Opening<'a> {
    pub form: Form<'a>,
    pub span: Span,
    pub attrs: &'a [TagAttr],
}

/// What stands in a tag: its attributes, and its content.
#[derive(Drop)]
struct Filled {
    attrs: FragAttrs,
    content: Frags,
}

/// A tag, which goes to the slot of a name where it has a `slot` attribute.
#[cycle(walk)]
#[tactic(auto, unfolding(crate::specs::Tags::tag))]
pub(crate) fn make_tag(
    tables: &mut Tables,
    around: &Around<'_>,
    locals: &LocalScope<'_>,
    opening: &Opening<'_>,
    children: &[Markup],
) -> Result<Frag, NoMemory>
    ensures { Makes result (made_of (spec.tag (form_of opening.now.form) opening.now.span opening.now.attrs.now (map node children.now)) (seen around.now) (names_of locals.now) tables.old) tables.new }
{
    if !is_slotted(opening.attrs) {
        return make_whole(tables, around, locals, opening, children);
    }
    let names = let_names(around.alloc, opening.attrs)?;
    let inside = LocalScope::inside(&*locals, &names);
    let made = make_whole(tables, around, &inside, opening, children)?;
    named(around.alloc, opening.attrs, made)
}

#[cycle(walk)]
#[tactic(auto, unfolding(crate::specs::Tags::whole))]
fn make_whole(
    tables: &mut Tables,
    around: &Around<'_>,
    locals: &LocalScope<'_>,
    opening: &Opening<'_>,
    children: &[Markup],
) -> Result<Frag, NoMemory>
    ensures { Makes result (spec.whole (form_of opening.now.form) opening.now.span opening.now.attrs.now (map node children.now) (seen around.now) (names_of locals.now) tables.old) tables.new }
{
    let filled = fill(tables, around, locals, opening, children)?;
    close(tables, around, locals, opening, filled)
}

// What stands in a tag.
#[cycle(walk)]
#[tactic(auto, unfolding(crate::specs::Tags::filled))]
fn fill(
    tables: &mut Tables,
    around: &Around<'_>,
    locals: &LocalScope<'_>,
    opening: &Opening<'_>,
    children: &[Markup],
) -> Result<Filled, NoMemory>
    ensures { Makes result (spec.filled (form_of opening.now.form) opening.now.attrs.now (map node children.now) (seen around.now) (names_of locals.now) tables.old) tables.new }
{
    let names = own_names(around.alloc, opening)?;
    let scope = ContentScope {
        outer: &*locals,
        names: &names,
    };
    let attrs = attrs_of(tables, around, locals, opening.attrs)?;
    let content = make_content(tables, around, &scope, children, strips(&opening.form))?;
    Ok(Filled { attrs, content })
}

// Whether the content of a tag loses white space at its ends.
fn strips(form: &Form<'_>) -> bool
    ensures { result ≡ spec.strips (form_of form.now) }
{
    match form {
        Form::Element(_) => false,
        Form::Component(_) | Form::Slot(_) => true,
    }
}

// Whether the `let:` names of a tag are those of its default content.
fn has_own_lets(opening: &Opening<'_>) -> bool
    ensures { result ≡ spec.has_own_lets (form_of opening.now.form) opening.now.attrs.now }
{
    match opening.form {
        Form::Component(_) => !is_slotted(opening.attrs),
        Form::Element(_) | Form::Slot(_) => false,
    }
}

// The names that slot props have in the default content of a tag.
fn own_names(alloc: Global, opening: &Opening<'_>) -> Result<Distinct, NoMemory>
    ensures { IfOk result (λ names. names ≡ spec.own_refs (form_of opening.now.form) opening.now.attrs.now) }
{
    if has_own_lets(opening) {
        return let_names(alloc, opening.attrs);
    }
    Ok(Distinct::new(alloc))
}

// The slot props of the default content of a tag.
fn own_lets(alloc: Global, opening: &Opening<'_>) -> Result<LetNames, NoMemory>
    ensures { IfOk result (λ lets. lets ≡ spec.own_lets (form_of opening.now.form) opening.now.attrs.now) }
{
    if has_own_lets(opening) {
        return lets_of(alloc, opening.attrs);
    }
    Ok(LetNames::new(alloc))
}

// A tag with what stands in it.
#[tactic(auto, unfolding(crate::specs::Tags::closed))]
fn close(
    tables: &mut Tables,
    around: &Around<'_>,
    locals: &LocalScope<'_>,
    opening: &Opening<'_>,
    filled: Filled,
) -> Result<Frag, NoMemory>
    ensures { Makes result (spec.closed (form_of opening.now.form) opening.now.span (spec.own_lets (form_of opening.now.form) opening.now.attrs.now) filled (seen around.now) (names_of locals.now) tables.old) tables.new }
{
    match opening.form {
        Form::Element(name) => close_element(opening.span, name, filled),
        Form::Component(name) => {
            let lets = own_lets(around.alloc, opening)?;
            let tag = tag_of(around, opening.span, name, lets, filled)?;
            add_tag(tables, around, tag)
        }
        Form::Slot(name) => close_slot(around, locals, opening.span, name, filled),
    }
}

fn close_element(span: Span, name: &Text, filled: Filled) -> Result<Frag, NoMemory>
    ensures { IfOk result (λ made. made ≡ frag.Element span name.now filled.attrs filled.content) }
{
    Ok(Frag::Element {
        span,
        name: name.share()?,
        attrs: filled.attrs,
        children: filled.content,
    })
}

fn close_slot(
    around: &Around<'_>,
    locals: &LocalScope<'_>,
    span: Span,
    name: &Text,
    filled: Filled,
) -> Result<Frag, NoMemory>
    ensures { IfOk result (λ made. made ≡ frag.Slot span name.now filled.attrs filled.content (spec_reading around.now.tops.now around.now.cells.now (names_of locals.now) (VIEW ∷ []))) }
{
    let reads = reading(
        around.alloc,
        around.tops,
        around.cells,
        locals,
        std::slice::from_ref(&VIEW),
    )?;
    Ok(Frag::Slot {
        span,
        name: name.share()?,
        attrs: filled.attrs,
        own: filled.content,
        reads,
    })
}

fn tag_of(
    around: &Around<'_>,
    span: Span,
    name: Name,
    lets: LetNames,
    filled: Filled,
) -> Result<Tag, NoMemory>
    ensures { IfOk result (λ tag. tag ≡ spec.tag_of (seen around.now) span name lets filled) }
{
    let file = file_at(around.children, name)?;
    let reads = looked_at(
        around.alloc,
        around.cells.len(),
        lets.as_slice(),
        filled.content.as_slice(),
    )?;
    Ok(Tag {
        span,
        file,
        attrs: filled.attrs,
        lets,
        content: filled.content,
        reads,
    })
}

// The file that the name of a component's tag stands for, where its number is below 2^16.
fn file_at(children: &NameMap, name: Name) -> Result<u16, NoMemory>
    ensures { IfOk result (λ file. file ≡ spec.file_at children.now name) }
{
    match u16::try_from(children.get(Ref::Plain(name)).unwrap_or(0)) {
        Ok(file) => Ok(file),
        Err(_) => Err(NoMemory),
    }
}

// Puts a component's tag behind those that there are, where there is a number left below 2^32.
fn add_tag(tables: &mut Tables, around: &Around<'_>, tag: Tag) -> Result<Frag, NoMemory>
    ensures { Makes result (spec.with_tag (length around.now.cells.now) tag tables.old) tables.new }
{
    let number = next_number(tables.tags.len())?;
    let count = around.cells.len();
    let reads = tag_looks(around.alloc, count, tag.attrs.as_slice(), &tag.reads)?;
    tables.tags.push(tag)?;
    Ok(Frag::Tag { tag: number, reads })
}

// A node that goes to the slot of a name.
fn named(alloc: Global, attrs: &[TagAttr], node: Frag) -> Result<Frag, NoMemory>
    ensures { IfOk result (λ fragment. fragment ≡ spec.named_by attrs.now node) }
{
    let node = Boxed::new(alloc, node)?;
    let slot = Text::new(alloc, slot_name(attrs))?;
    let lets = lets_of(alloc, attrs)?;
    Ok(Frag::Named { slot, lets, node })
}
