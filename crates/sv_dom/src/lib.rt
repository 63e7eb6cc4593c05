//! The page: a tree of elements, texts and anchors that tells each change and is printed. A contract sees it as the list
//! of its tokens in document order, so that each call edits one place of the list and leaves all around it.
#![tactic(auto)]

ghost use Rattle.std.specs.Prelude.{◌≡◌, ◌≢◌, ◌+◌, ◌∷◌, ◌^◌, ◌<◌, ◌≤◌, [], IfOk, OnOk, OnErr, IsSome, IsNone, None, ◌↔◌, ℕ, IfSome};
ghost use Rattle.sv_tokens.specs.Counting.{times, Has};
ghost use Rattle.sv_tokens.specs.Token.{named, Text as text_token, Anchor as anchor_token, opens, texts, anchors, begins, identifies, first_key, lacks_number, name_at, parent_at, IsPlace, IsBeside};
ghost use Rattle.sv_tokens.specs.Numbering.{numbered};
ghost use Rattle.sv_tokens.specs.Edit.{Moved, Removed, with_text, with_element, with_attribute, without_slot, with_typed};
ghost use Rattle.sv_tokens.specs.Seen.{seen, view_of, IsNumbered};
ghost use Rattle.sv_tokens.specs.Replay.{replay, replay_if, element_tokens, Gains, Edits};
ghost use Rattle.sv_tokens.specs.declared.change.What.{What};
ghost use Rattle.sv_tokens.specs.declared.change.Change.TheVariants.{Make, Move};
ghost use Rattle.sv_nodes.specs.Nodes.{leaf, start, finish, weight, tokens_of};
ghost use Rattle.sv_nodes.specs.Sound.{IsSound};
ghost use Rattle.sv_nodes.specs.Cells.{kind_of, cell_of, nodes_of};
ghost use Rattle.sv_dom.specs.Dom.{empty_page, key_in, kind_of_what, relocation, removal};

mod printed;

pub use printed::print;
use slab::Slab;
use std::alloc::Global;
use std::marker::Model;
use sv_base::{NoMemory, Text};
use sv_nodes::{
    Content, Element, Entry, Followers, entry_at, find_in, has_attribute, has_no_slot, has_text,
    has_typed, make_node, move_node, number_in, remove_in, write_attribute, write_dropped,
    write_text, write_typed,
};
pub use sv_tokens::{Attr, Attribute, Change, Typed, What};

/// A node of a page, named by its key. It is good until the node is removed.
#[derive(Clone, Copy, Debug, PartialEq, Eq)]
pub struct Node(pub u32);

/// A page tree.
#[derive(Drop)]
pub struct Dom {
    alloc: Global,
    nodes: Slab<Entry>,
    next: u64,
    number: u64,
}

impl Model for Dom {
    ghost use Rattle.sv_tokens.specs.Token.{Page};

    ghost Value = { Page };

    ghost use Rattle.sv_nodes.specs.Cells.{nodes_of};
    ghost use Rattle.sv_dom.specs.Dom.{page_of, IsDom};

    ghost view = { λ d. page_of (nodes_of d.nodes.slots) d.next d.number };

    ghost invariant = { λ d. IsDom (nodes_of d.nodes.slots) d.next d.number };
}

// A node that was made, with what a change says of it.
#[derive(Clone, Copy)]
struct Made {
    node: Node,
    serial: u64,
    parent: u64,
    before: u64,
}

impl Dom {
    /// A page with nothing on it. The next serial number and the next printed number are 1.
    pub fn new(alloc: Global) -> Result<Dom, NoMemory>
        ensures { IfOk result (λ dom. dom ≡ empty_page) }
    {
        let root = Element {
            name: Text::new(alloc, "")?,
            attributes: Vec::new(alloc),
            typed: None,
        };
        let mut nodes = Slab::new(alloc);
        nodes.insert(Entry {
            serial: 0,
            parent: 0,
            above: 0,
            number: Some(0),
            content: Content::Element(root),
            children: Vec::new(alloc),
        })?;
        Ok(Dom {
            alloc,
            nodes,
            next: 1,
            number: 1,
        })
    }

    /// The page itself, under which everything stands. No two nodes have one key or one serial number.
    pub fn page(&self) -> Node
        ensures key { result.0 ≡ 0 }
        ensures stands { Has (opens 0) self.now.tokens }
        ensures once { (key : ℕ) → times (begins key) self.now.tokens ≤ 1 }
        ensures numbered { IsNumbered (seen self.now.tokens) self.now.next }
    {
        let _ = &self.nodes;
        Node(0)
    }

    // The nodes under their keys.
    pub(crate) fn nodes(&self) -> &Slab<Entry>
        ensures shows { tokens_of (nodes_of result.now.slots) ≡ self.now.tokens }
        ensures sound { IsSound (nodes_of result.now.slots) self.now.next }
    {
        &self.nodes
    }

    /// The serial number that the next node takes.
    pub fn next_serial(&self) -> u64
        ensures { result ≡ self.now.next }
    {
        self.next
    }

    /// Makes an element with no attributes, a child of `parent` before another child or at the end.
    pub fn make_element(
        &mut self,
        parent: Node,
        before: Option<Node>,
        name: Text,
    ) -> Result<(Node, Change), NoMemory>
        requires { IsPlace self.old.tokens parent.0 (key_in before) }
        ensures made { IfOk result (λ made. Gains self.old self.new parent.0 (key_in before) made.0.0
            (element_tokens (named made.0.0 self.old.next) (name_at parent.0 self.old.tokens) name)) }
        ensures next { OnOk result (self.new.next ≡ self.old.next + 1) }
        ensures told { IfOk result (λ made. view_of self.new ≡ replay made.1 (view_of self.old)) }
        ensures kept { OnErr result (self.new ≡ self.old) }
    {
        let what = What::Element(name.share()?);
        let element = Element {
            name,
            attributes: Vec::new(self.alloc),
            typed: None,
        };
        let made = self.make(parent, before, Content::Element(element))?;
        Ok(made.told(what))
    }

    /// Makes a text, a child of `parent` before another child or at the end.
    pub fn make_text(
        &mut self,
        parent: Node,
        before: Option<Node>,
        text: Text,
    ) -> Result<(Node, Change), NoMemory>
        requires { IsPlace self.old.tokens parent.0 (key_in before) }
        ensures made { IfOk result (λ made. Gains self.old self.new parent.0 (key_in before) made.0.0
            (text_token (named made.0.0 self.old.next) (name_at parent.0 self.old.tokens) None text ∷ [])) }
        ensures next { OnOk result (self.new.next ≡ self.old.next + 1) }
        ensures told { IfOk result (λ made. view_of self.new ≡ replay made.1 (view_of self.old)) }
        ensures kept { OnErr result (self.new ≡ self.old) }
    {
        let what = What::Text(text.share()?);
        let made = self.make(parent, before, Content::Text(text))?;
        Ok(made.told(what))
    }

    /// Makes an anchor, which marks a place, shows nothing, takes no serial number and is told to nobody.
    pub fn make_anchor(&mut self, parent: Node, before: Option<Node>) -> Result<Node, NoMemory>
        requires { IsPlace self.old.tokens parent.0 (key_in before) }
        ensures made { IfOk result (λ made. Gains self.old self.new parent.0 (key_in before) made.0
            (anchor_token made.0 (name_at parent.0 self.old.tokens) ∷ [])) }
        ensures next { OnOk result (self.new.next ≡ self.old.next) }
        ensures seen { OnOk result (view_of self.new ≡ view_of self.old) }
        ensures kept { OnErr result (self.new ≡ self.old) }
    {
        let made = self.make(parent, before, Content::Anchor)?;
        Ok(made.node)
    }

    fn make(
        &mut self,
        parent: Node,
        before: Option<Node>,
        content: Content,
    ) -> Result<Made, NoMemory>
        requires { IsPlace self.old.tokens parent.0 (key_in before) }
        ensures made { IfOk result (λ made. Gains self.old self.new parent.0 (key_in before) made.node.0
            (start made.node.0 (leaf self.old.next (name_at parent.0 self.old.tokens) (kind_of content)) ∷ finish made.node.0 (leaf self.old.next (name_at parent.0 self.old.tokens) (kind_of content)))) }
        ensures next { OnOk result (self.new.next ≡ self.old.next + weight (kind_of content)) }
        ensures told { IfOk result (λ made. (w : What) → kind_of content ≡ kind_of_what w → view_of self.new ≡ replay (Make made.serial made.parent made.before w) (view_of self.old)) }
        ensures kept { OnErr result (self.new ≡ self.old) }
    {
        if self.next == u64::MAX {
            return Err(NoMemory);
        }
        let serial = self.next;
        let serials = serials_of(&content);
        let before = key_of(before);
        let made = make_node(
            self.alloc,
            &mut self.nodes,
            parent.0,
            before,
            serial,
            content,
        )?;
        self.next += serials;
        Ok(Made {
            node: Node(made.key),
            serial,
            parent: made.above,
            before: made.follower,
        })
    }

    /// Gives a text another text. `None` exactly where it has that text already.
    pub fn set_text(&mut self, node: Node, text: Text) -> Result<Option<Change>, NoMemory>
        requires { Has (texts node.0) self.old.tokens }
        ensures edit { IfOk result (λ told. Edits self.old self.new node.0 (with_text text) told) }
        ensures kept { OnErr result (self.new ≡ self.old) }
    {
        let entry = entry_at(&self.nodes, node.0 as usize);
        if has_text(&entry.content, &text) {
            drop(text);
            return Ok(None);
        }
        let serial = entry.serial;
        let shown = text.share()?;
        write_text(&mut self.nodes, node.0 as usize, shown);
        Ok(Some(Change::SetText { serial, text }))
    }

    /// Gives an element an attribute, in the place of the one at its slot. `None` exactly where it has that
    /// attribute already.
    pub fn set_attr(
        &mut self,
        node: Node,
        slot: u16,
        name: Text,
        attr: Attr,
    ) -> Result<Option<Change>, NoMemory>
        requires stands { Has (opens node.0) self.old.tokens }
        requires below { node.0 ≢ 0 }
        ensures edit { IfOk result (λ told. Edits self.old self.new node.0 (with_element (with_attribute (record { slot = slot; name = name; value = attr }))) told) }
        ensures kept { OnErr result (self.new ≡ self.old) }
    {
        let entry = entry_at(&self.nodes, node.0 as usize);
        if has_attribute(&entry.content, slot, &name, &attr) {
            drop(name);
            drop(attr);
            return Ok(None);
        }
        let serial = entry.serial;
        let attribute = attribute_of(slot, &name, &attr)?;
        write_attribute(&mut self.nodes, node.0 as usize, attribute)?;
        Ok(Some(Change::SetAttr {
            serial,
            slot,
            name,
            attr,
        }))
    }

    /// Takes the attribute at a slot from an element. `None` exactly where the slot has none.
    pub fn drop_attr(&mut self, node: Node, slot: u16) -> Option<Change>
        requires stands { Has (opens node.0) self.old.tokens }
        requires below { node.0 ≢ 0 }
        ensures { Edits self.old self.new node.0 (with_element (without_slot slot)) result }
    {
        let entry = entry_at(&self.nodes, node.0 as usize);
        if has_no_slot(&entry.content, slot) {
            return None;
        }
        let serial = entry.serial;
        write_dropped(&mut self.nodes, node.0 as usize, slot);
        Some(Change::DropAttr { serial, slot })
    }

    /// Lays what was typed over an element, or takes it away. `None` exactly where that is so already.
    pub fn set_typed(
        &mut self,
        node: Node,
        typed: Option<Typed>,
    ) -> Result<Option<Change>, NoMemory>
        requires stands { Has (opens node.0) self.old.tokens }
        requires below { node.0 ≢ 0 }
        ensures edit { IfOk result (λ told. Edits self.old self.new node.0 (with_element (with_typed typed)) told) }
        ensures kept { OnErr result (self.new ≡ self.old) }
    {
        let entry = entry_at(&self.nodes, node.0 as usize);
        if has_typed(&entry.content, &typed) {
            drop(typed);
            return Ok(None);
        }
        let serial = entry.serial;
        let shown = typed_of(&typed)?;
        write_typed(&mut self.nodes, node.0 as usize, shown);
        Ok(Some(Change::SetTyped { serial, typed }))
    }

    /// The first element in document order that shows that `id`; `None` exactly where none does.
    pub fn find_id(&self, id: &str) -> Option<Node>
        ensures { key_in result ≡ first_key (identifies id.now) self.now.tokens }
    {
        find_in(&self.nodes, self.next, 0, id).map(Node)
    }

    /// Moves a node with all below it before another child of its parent, or to that one's end. `None` exactly
    /// for an anchor and where the node, anchors aside, stands there already.
    pub fn move_before(&mut self, node: Node, before: Option<Node>) -> Option<Change>
        requires stands { Has (begins node.0) self.old.tokens }
        requires below { node.0 ≢ 0 }
        requires place { IsBeside self.old.tokens node.0 (key_in before) }
        ensures tokens { Moved self.old.tokens self.new.tokens node.0 (parent_at node.0 self.old.tokens).key (key_in before) }
        ensures next { self.new.next ≡ self.old.next }
        ensures number { self.new.number ≡ self.old.number }
        ensures told { view_of self.new ≡ replay_if result (view_of self.old) }
        ensures none { IsNone result ↔ (view_of self.new ≡ view_of self.old) }
        ensures some { IfSome result (λ told. (place : ℕ) × (told ≡ Move (name_at node.0 self.old.tokens).serial place)) }
    {
        let before = key_of(before);
        let followers = move_node(&mut self.nodes, node.0, before);
        relocation_of(entry_at(&self.nodes, node.0 as usize), followers)
    }

    /// Takes away a node and all below it. `None` exactly for an anchor, which nobody sees; what is told is seen.
    pub fn remove(&mut self, node: Node) -> Option<Change>
        requires stands { Has (begins node.0) self.old.tokens }
        requires below { node.0 ≢ 0 }
        ensures tokens { Removed self.old.tokens self.new.tokens node.0 }
        ensures next { self.new.next ≡ self.old.next }
        ensures number { self.new.number ≡ self.old.number }
        ensures told { view_of self.new ≡ replay_if result (view_of self.old) }
        ensures none { IsNone result ↔ Has (anchors node.0) self.old.tokens }
        ensures some { IsSome result → view_of self.new ≢ view_of self.old }
    {
        let told = removal_of(entry_at(&self.nodes, node.0 as usize));
        remove_in(&mut self.nodes, self.next, node.0);
        told
    }

    /// Gives each element and each text that has no printed number the next one, in document order, from 1. A
    /// number stays with its node, and none is used again.
    pub fn number(&mut self)
        ensures tokens { self.new.tokens ≡ numbered self.old.number self.old.tokens }
        ensures given { times lacks_number self.new.tokens ≡ 0 }
        ensures number { self.new.number ≡ self.old.number + times lacks_number self.old.tokens }
        ensures next { self.new.next ≡ self.old.next }
        ensures seen { view_of self.new ≡ view_of self.old }
    {
        self.number = number_in(&mut self.nodes, self.next, 0, self.number);
    }
}

impl Made {
    // The node, and the change that made it.
    fn told(self, what: What) -> (Node, Change)
        ensures { result ≡ record { 0 = self.node; 1 = Make self.serial self.parent self.before what } }
    {
        let change = Change::Make {
            serial: self.serial,
            parent: self.parent,
            before: self.before,
            what,
        };
        (self.node, change)
    }
}

// What is told where a node goes elsewhere.
fn relocation_of(entry: &Entry, followers: Followers) -> Option<Change>
    ensures { result ≡ relocation (cell_of entry.now) followers.earlier followers.later }
{
    let serial = entry.serial;
    let before = followers.later;
    match entry.content {
        Content::Anchor => None,
        _ if followers.earlier == before => None,
        _ => Some(Change::Move { serial, before }),
    }
}

// What is told where a node is taken away.
fn removal_of(entry: &Entry) -> Option<Change>
    ensures { result ≡ removal (cell_of entry.now) }
{
    match entry.content {
        Content::Anchor => None,
        _ => Some(Change::Remove {
            serial: entry.serial,
        }),
    }
}

// An attribute whose texts are shared.
fn attribute_of(slot: u16, name: &Text, attr: &Attr) -> Result<Attribute, NoMemory>
    ensures { IfOk result (λ made. made ≡ record { slot = slot; name = name.now; value = attr.now }) }
{
    let name = name.share()?;
    let value = attr.share()?;
    Ok(Attribute { slot, name, value })
}

// A typed state whose text is shared.
fn typed_of(typed: &Option<Typed>) -> Result<Option<Typed>, NoMemory>
    ensures { IfOk result (λ made. made ≡ typed.now) }
{
    match typed {
        Some(typed) => Ok(Some(typed.share()?)),
        None => Ok(None),
    }
}

// How many serial numbers such a node takes.
fn serials_of(content: &Content) -> u64
    ensures { result ≡ weight (kind_of content.now) }
{
    match content {
        Content::Element(_) => 1,
        Content::Text(_) => 1,
        Content::Anchor => 0,
    }
}

// The key of a node.
fn key_of(node: Option<Node>) -> Option<u32>
    ensures { result ≡ key_in node }
{
    match node {
        Some(node) => Some(node.0),
        None => None,
    }
}
