// A page, and what was told of it.
ghost use Rattle.std.specs.Prelude.{◌≡◌, ◌≢◌, ◌≤◌, ◌+◌, ℕ, ◌++◌, ◌∷◌, [], IfOk, OnOk, None, option_to_list};
ghost use Rattle.sv_tokens.specs.Counting.{Has, times};
ghost use Rattle.sv_tokens.specs.Numbering.{numbered};
ghost use Rattle.sv_tokens.specs.Token.{begins, opens, texts, lacks_number, name_at, parent_at, Text as text_token, Anchor as anchor_token, IsPlace, IsBeside};
ghost use Rattle.sv_tokens.specs.Edit.{Moved, Removed, Rewritten, with_text, with_element, with_attribute, without_slot, with_typed};
ghost use Rattle.sv_tokens.specs.Replay.{Gains, element_tokens};
ghost use Rattle.sv_live.specs.Shown.{name_of};
ghost use Rattle.sv_live.specs.Stands.{Tells};
ghost use Rattle.sv_dom.specs.Dom.{key_in};

use std::alloc::Global;
use std::marker::Model;
use sv_base::{NoMemory, Text};
use sv_dom::{Dom, Node};
use sv_list::Items;
use sv_live::{Named, share_typed};
use sv_tokens::{Attribute, Change, Typed};

/// A page, and the changes that were told of it. A clause sees both.
#[derive(Drop)]
pub struct Screen {
    alloc: Global,
    dom: Dom,
    changes: Items<Change>,
}

impl Model for Screen {
    ghost use Rattle.sv_live.specs.Stands.{State};

    ghost Value = { State };

    ghost view = { λ s. record { page = s.dom; changes = s.changes } };
}

impl Screen {
    /// A page of which nothing was told yet.
    pub fn new(alloc: Global, dom: Dom) -> Screen
        ensures { result ≡ record { page = dom; changes = [] } }
    {
        Screen {
            alloc,
            dom,
            changes: Items::new(alloc),
        }
    }

    // Where memory is taken from.
    pub(crate) fn alloc(&self) -> Global {
        self.alloc
    }

    /// The page.
    pub fn page(&self) -> &Dom
        ensures { result.now ≡ self.now.page }
    {
        &self.dom
    }

    /// The page, and what was told of it.
    pub fn into_parts(self) -> (Dom, Items<Change>)
        ensures page { result.0 ≡ self.page }
        ensures changes { result.1 ≡ self.changes }
    {
        let Screen { dom, changes, .. } = self;
        (dom, changes)
    }

    /// What was told.
    pub fn told(&self) -> &[Change]
        ensures { result.now ≡ self.now.changes }
    {
        self.changes.as_slice()
    }

    /// Drops what was told so far.
    pub fn forget(&mut self)
        ensures { self.new ≡ record self.old { changes = [] } }
    {
        self.changes = Items::new(self.alloc);
    }

    /// Gives each element and each text that has no printed number the next one, in document order. Nothing is told.
    pub fn number(&mut self)
        ensures tokens { self.new.page.tokens ≡ numbered self.old.page.number self.old.page.tokens }
        ensures given { times lacks_number self.new.page.tokens ≡ 0 }
        ensures number { self.new.page.number ≡ self.old.page.number + times lacks_number self.old.page.tokens }
        ensures next { self.new.page.next ≡ self.old.page.next }
        ensures told { self.new.changes ≡ self.old.changes }
    {
        self.dom.number();
    }

    // No two nodes have one key.
    pub(crate) fn has_keys(&self)
        ensures { (key : ℕ) → times (begins key) self.now.page.tokens ≤ 1 }
    {
        let _ = self.dom.page();
    }

    // Tells a change, if there is one.
    fn tell(&mut self, told: Option<Change>) -> Result<(), NoMemory>
        ensures page { OnOk result (self.new.page ≡ self.old.page) }
        ensures told { OnOk result (self.new.changes ≡ self.old.changes ++ option_to_list told) }
    {
        match told {
            Some(change) => self.changes.push(change),
            None => Ok(()),
        }
    }

    // Makes a text.
    pub(crate) fn make_text(
        &mut self,
        parent: u32,
        before: Option<u32>,
        text: &Text,
    ) -> Result<Named, NoMemory>
        requires { IsPlace self.old.page.tokens parent before }
        ensures made { IfOk result (λ n. Gains self.old.page self.new.page parent before n.key (text_token (name_of n) (name_at parent self.old.page.tokens) None text.now ∷ [])) }
        ensures serial { IfOk result (λ n. n.serial ≡ self.old.page.next) }
        ensures next { OnOk result (self.new.page.next ≡ self.old.page.next + 1) }
        ensures tells { OnOk result (Tells self.old self.new) }
    {
        let serial = self.dom.next_serial();
        let (node, change) = self
            .dom
            .make_text(Node(parent), node_of(before), text.share()?)?;
        self.tell(Some(change))?;
        Ok(Named {
            key: node.0,
            serial,
        })
    }

    // Makes an element that has nothing but its name.
    pub(crate) fn make_element(
        &mut self,
        parent: u32,
        before: Option<u32>,
        name: &Text,
    ) -> Result<Named, NoMemory>
        requires { IsPlace self.old.page.tokens parent before }
        ensures made { IfOk result (λ n. Gains self.old.page self.new.page parent before n.key (element_tokens (name_of n) (name_at parent self.old.page.tokens) name.now)) }
        ensures serial { IfOk result (λ n. n.serial ≡ self.old.page.next) }
        ensures next { OnOk result (self.new.page.next ≡ self.old.page.next + 1) }
        ensures tells { OnOk result (Tells self.old self.new) }
    {
        let serial = self.dom.next_serial();
        let (node, change) = self
            .dom
            .make_element(Node(parent), node_of(before), name.share()?)?;
        self.tell(Some(change))?;
        Ok(Named {
            key: node.0,
            serial,
        })
    }

    // Makes a node that marks a place, which nobody sees.
    pub(crate) fn make_anchor(&mut self, parent: u32, before: Option<u32>) -> Result<u32, NoMemory>
        requires { IsPlace self.old.page.tokens parent before }
        ensures made { IfOk result (λ key. Gains self.old.page self.new.page parent before key (anchor_token key (name_at parent self.old.page.tokens) ∷ [])) }
        ensures next { OnOk result (self.new.page.next ≡ self.old.page.next) }
        ensures tells { OnOk result (Tells self.old self.new) }
    {
        let node = self.dom.make_anchor(Node(parent), node_of(before))?;
        self.tell(None)?;
        Ok(node.0)
    }

    // Moves a node before another child of its parent, or to that one's end.
    pub(crate) fn move_before(&mut self, key: u32, before: Option<u32>) -> Result<(), NoMemory>
        requires stands { Has (begins key) self.old.page.tokens }
        requires below { key ≢ 0 }
        requires place { IsBeside self.old.page.tokens key before }
        ensures tokens { OnOk result (Moved self.old.page.tokens self.new.page.tokens key (parent_at key self.old.page.tokens).key before) }
        ensures next { OnOk result (self.new.page.next ≡ self.old.page.next) }
        ensures tells { OnOk result (Tells self.old self.new) }
    {
        let told = self.dom.move_before(Node(key), node_of(before));
        self.tell(told)
    }

    // Takes away a node and all below it.
    pub(crate) fn remove(&mut self, key: u32) -> Result<(), NoMemory>
        requires stands { Has (begins key) self.old.page.tokens }
        requires below { key ≢ 0 }
        ensures tokens { OnOk result (Removed self.old.page.tokens self.new.page.tokens key) }
        ensures next { OnOk result (self.new.page.next ≡ self.old.page.next) }
        ensures tells { OnOk result (Tells self.old self.new) }
    {
        let told = self.dom.remove(Node(key));
        self.tell(told)
    }

    // Gives a text another text.
    pub(crate) fn set_text(&mut self, key: u32, text: &Text) -> Result<(), NoMemory>
        requires { Has (texts key) self.old.page.tokens }
        ensures tokens { OnOk result (Rewritten self.old.page.tokens self.new.page.tokens key (with_text text.now)) }
        ensures next { OnOk result (self.new.page.next ≡ self.old.page.next) }
        ensures tells { OnOk result (Tells self.old self.new) }
    {
        let told = self.dom.set_text(Node(key), text.share()?)?;
        self.tell(told)
    }

    // Gives an element an attribute.
    pub(crate) fn set_attr(&mut self, key: u32, attribute: &Attribute) -> Result<(), NoMemory>
        requires stands { Has (opens key) self.old.page.tokens }
        requires below { key ≢ 0 }
        ensures tokens { OnOk result (Rewritten self.old.page.tokens self.new.page.tokens key (with_element (with_attribute attribute.now))) }
        ensures stands { OnOk result (Has (opens key) self.new.page.tokens) }
        ensures next { OnOk result (self.new.page.next ≡ self.old.page.next) }
        ensures tells { OnOk result (Tells self.old self.new) }
    {
        let name = attribute.name.share()?;
        let value = attribute.value.share()?;
        let told = self.dom.set_attr(Node(key), attribute.slot, name, value)?;
        self.tell(told)
    }

    // Takes an attribute from an element.
    pub(crate) fn drop_attr(&mut self, key: u32, slot: u16) -> Result<(), NoMemory>
        requires stands { Has (opens key) self.old.page.tokens }
        requires below { key ≢ 0 }
        ensures tokens { OnOk result (Rewritten self.old.page.tokens self.new.page.tokens key (with_element (without_slot slot))) }
        ensures stands { OnOk result (Has (opens key) self.new.page.tokens) }
        ensures next { OnOk result (self.new.page.next ≡ self.old.page.next) }
        ensures tells { OnOk result (Tells self.old self.new) }
    {
        let told = self.dom.drop_attr(Node(key), slot);
        self.tell(told)
    }

    // Lays what was typed over an element, or takes it away.
    pub(crate) fn set_typed(&mut self, key: u32, typed: &Option<Typed>) -> Result<(), NoMemory>
        requires stands { Has (opens key) self.old.page.tokens }
        requires below { key ≢ 0 }
        ensures tokens { OnOk result (Rewritten self.old.page.tokens self.new.page.tokens key (with_element (with_typed typed.now))) }
        ensures next { OnOk result (self.new.page.next ≡ self.old.page.next) }
        ensures tells { OnOk result (Tells self.old self.new) }
    {
        let told = self.dom.set_typed(Node(key), share_typed(typed)?)?;
        self.tell(told)
    }
}

// The node of a key.
fn node_of(key: Option<u32>) -> Option<Node>
    ensures { key_in result ≡ key }
{
    match key {
        Some(key) => Some(Node(key)),
        None => None,
    }
}
