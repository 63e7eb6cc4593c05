// What an element shows.
ghost use Rattle.std.specs.Prelude.{◌≡◌, option_map, option_copied};
ghost use Rattle.sv_document.specs.Shown as spec;

use crate::listener::Listener;
use std::marker::Model;
use sv_base::Text;
use sv_tokens::{Attr, Attribute, Typed};
use sv_value::Inst;

/// The attributes of an element, in the order of the template.
pub type Attributes = sv_list::Items<Attribute>;

/// The directives of an element that events are told, in the order of the text.
pub type Listeners = sv_list::Items<Listener>;

/// An element without its children: the instance in whose shape it stands, its mark there, its name, the attributes that the page
/// gives it, what a user left in it, and who is told of events. Content of a slot stands in the shape of the component that has the
/// slot. A clause sees the instance as its number.
#[derive(Drop)]
pub struct Element {
    pub inst: Inst,
    pub mark: u64,
    pub name: Text,
    pub attributes: Attributes,
    pub typed: Option<Typed>,
    pub listeners: Listeners,
}

impl Model for Element {
    ghost use Rattle.std.specs.Coded.{codes};
    ghost use Rattle.sv_document.specs.Element.{Element};
    ghost use Rattle.sv_document.specs.contracts.listener.Listener as listener;
    ghost use Rattle.sv_tokens.specs.contracts.element.Attribute as attribute;
    ghost use Rattle.sv_tokens.specs.contracts.element.Typed as left;

    ghost Value = { Element };

    ghost coded = { Prim.hlevel (codes, listener.the_row.coded, attribute.the_row.coded, left.the_row.coded) };

    ghost view = { λ e. record { inst = e.inst.number; mark = e.mark; name = e.name; attributes = e.attributes; typed = e.typed; listeners = e.listeners } };
}

impl Element {
    /// The text that it shows as its value: the one that was typed, or else that of its attribute `value`; `None` exactly where
    /// it shows none.
    pub fn shown_value(&self) -> Option<&str>
        ensures { option_map (λ t. t.now) result ≡ spec.shown_value self.now }
    {
        match &self.typed {
            Some(Typed::Text(text)) => Some(text.as_str()),
            _ => self.text_at("value"),
        }
    }

    /// The text that it shows as its `id`; `None` exactly where it shows none.
    pub fn shown_id(&self) -> Option<&str>
        ensures { option_map (λ t. t.now) result ≡ spec.shown_id self.now }
    {
        self.text_at("id")
    }

    /// Whether it shows as checked: as it was left, or else where it has the attribute `checked`.
    pub fn is_checked(&self) -> bool
        ensures { result ≡ spec.is_checked self.now }
    {
        match self.typed {
            Some(Typed::Checked(checked)) => checked,
            _ => self.attribute("checked").is_some(),
        }
    }

    /// Whether its `type` is that of a box which is checked or not.
    pub fn is_check_kind(&self) -> bool
        ensures { result ≡ spec.is_check_kind self.now }
    {
        match self.text_at("type") {
            Some(kind) => kind == "checkbox" || kind == "radio",
            None => false,
        }
    }

    /// Whether its `type` is that of a number.
    pub fn is_number_kind(&self) -> bool
        ensures { result ≡ spec.is_number_kind self.now }
    {
        match self.text_at("type") {
            Some(kind) => kind == "number" || kind == "range",
            None => false,
        }
    }

    // The text of the first attribute of a name.
    fn text_at(&self, name: &str) -> Option<&str>
        ensures { option_map (λ t. t.now) result ≡ spec.text_at name.now self.now.attributes }
    {
        match self.attribute(name)? {
            Attr::Flag => None,
            Attr::Text(text) => Some(text.as_str()),
        }
    }

    // What the first attribute of a name shows.
    fn attribute(&self, name: &str) -> Option<&Attr>
        ensures { option_copied result ≡ spec.value_at name.now self.now.attributes }
    {
        let found = self.attributes.iter().find(|a| a.name.as_str() == name)?;
        Some(&found.value)
    }
}
