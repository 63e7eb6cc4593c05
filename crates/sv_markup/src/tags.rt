// Elements, components and slots.
ghost use Rattle.std.specs.Prelude.{◌≡◌, ◌≤◌, length, IfOk};
ghost use Rattle.sv_expr.specs.Limits.{real};
ghost use Rattle.sv_lex.specs.Reader.{Reads};
ghost use Rattle.sv_markup.specs.Below.{Nests};
ghost use Rattle.sv_markup.specs.Rules as spec;
ghost use Rattle.sv_markup.specs.Rules.{inside};

use crate::leaves::end_tag;
use crate::pieces::tag_name;
use crate::rules::Rules;
use crate::void::is_void;
use std::alloc::Global;
use sv_ast::{Markup, Nodes, ParseError};
use sv_base::{NoMemory, Text};
use sv_lex::{Source, name_text};
use sv_list::Items;
use sv_tags::{Tag, opened, opening_tag, tag_of};

// The name of a slot, which is empty where none is given.
fn slot_name(alloc: Global, given: Option<Text>) -> Result<Text, NoMemory>
    ensures { IfOk result (λ name. name ≡ spec.slot_name given) }
{
    match given {
        Some(name) => Ok(name),
        None => Text::new(alloc, ""),
    }
}

impl<F: Fn(Global, &mut Source<'_>, usize, bool) -> Result<Nodes, ParseError>> Rules<F> {
    // The nodes of an element that begins at `from`, and its end tag. One that stands alone has neither.
    #[tactic(auto, unfolding(crate::specs::Rules::contents))]
    fn contents(
        &self,
        source: &mut Source<'_>,
        from: u32,
        name: &str,
        owned: bool,
        is_alone: bool,
    ) -> Result<Nodes, ParseError>
        requires nests { Nests self.now.room (F.pre self.now.inside) (F.post self.now.inside) }
        requires room { 1 ≤ self.now.room }
        ensures { Reads (spec.contents real self.now.room (inside real self.now.room) from name.now owned is_alone source.old) result source.new }
    {
        if is_alone {
            return Ok(Items::new(self.alloc));
        }
        let children = self.enclosed(source, owned)?;
        end_tag(source, from, name)?;
        Ok(children)
    }

    /// An element of a name that is no component's and not `slot`.
    #[tactic(auto, unfolding(crate::specs::Rules::element, crate::specs::Rules::element_of, sv_tags::specs::Holes::opened))]
    pub(crate) fn element(&self, source: &mut Source<'_>, owned: bool) -> Result<Markup, ParseError>
        requires nests { Nests self.now.room (F.pre self.now.inside) (F.post self.now.inside) }
        requires front { 1 ≤ length source.old.text }
        ensures { Reads (spec.element real self.now.room (inside real self.now.room) owned source.old) result source.new }
    {
        let from = source.at();
        let name = tag_name(source.text());
        opened(source, self.room)?;
        source.pass(1 + name.len());
        let tag = tag_of(name.as_bytes());
        let found = opening_tag(self.alloc, source, tag, owned, self.room - 1, from)?;
        let is_alone = found.is_closed || is_void(name);
        let children = self.contents(source, from, name, false, is_alone)?;
        Ok(Markup::Element {
            span: source.span_from(from),
            name: Text::new(self.alloc, name)?,
            attrs: found.attrs,
            children,
        })
    }

    /// A component, whose nodes it owns.
    #[tactic(auto, unfolding(crate::specs::Rules::component, crate::specs::Rules::component_of, sv_tags::specs::Holes::opened))]
    pub(crate) fn component(
        &self,
        source: &mut Source<'_>,
        owned: bool,
    ) -> Result<Markup, ParseError>
        requires nests { Nests self.now.room (F.pre self.now.inside) (F.post self.now.inside) }
        requires front { 1 ≤ length source.old.text }
        ensures { Reads (spec.component real self.now.room (inside real self.now.room) owned source.old) result source.new }
    {
        let from = source.at();
        let text = name_text(&source.text()[1..]);
        opened(source, self.room)?;
        let name = source.intern(text)?;
        source.pass(1 + text.len());
        let found = opening_tag(
            self.alloc,
            source,
            Tag::Component,
            owned,
            self.room - 1,
            from,
        )?;
        let children = self.contents(source, from, text, true, found.is_closed)?;
        Ok(Markup::Comp {
            span: source.span_from(from),
            name,
            attrs: found.attrs,
            children,
        })
    }

    /// `<slot>`.
    #[tactic(auto, unfolding(crate::specs::Rules::slot, sv_tags::specs::Holes::opened))]
    pub(crate) fn slot(&self, source: &mut Source<'_>, owned: bool) -> Result<Markup, ParseError>
        requires nests { Nests self.now.room (F.pre self.now.inside) (F.post self.now.inside) }
        requires front { 5 ≤ length source.old.text }
        ensures { Reads (spec.slot real self.now.room (inside real self.now.room) owned source.old) result source.new }
    {
        let from = source.at();
        opened(source, self.room)?;
        source.pass(5);
        let found = opening_tag(self.alloc, source, Tag::Slot, owned, self.room - 1, from)?;
        let children = self.contents(source, from, "slot", false, found.is_closed)?;
        Ok(Markup::Slot {
            span: source.span_from(from),
            name: slot_name(self.alloc, found.slot)?,
            attrs: found.attrs,
            children,
        })
    }
}
